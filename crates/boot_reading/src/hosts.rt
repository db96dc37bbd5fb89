// Reading the models of hosts.
ghost use Rattle.pt_tree.specs.declared.row.Row.{Row};
ghost use Rattle.pt_tree.specs.declared.host_model.HostModel.{HostModel};
ghost use Rattle.pt_tree.specs.declared.host_model.HostModel.TheVariants as model;
ghost use Rattle.boot_fields.specs.Reading.{Gives, mapped, both, list_at, number64_at, numbers_at, signed128_at, row_at, model_at};

use crate::lists::{Part, list};
use boot_fields::{ReadError, number_i128, number_u64, text};
use pt_base::Listed;
use pt_tree::{HostModel, Row, Rows};
use std::alloc::Global;

#[tactic(auto, unfolding(boot_fields::specs::Reading::numbers_at))]
pub(crate) fn numbers(alloc: Global, bytes: &[u8]) -> Result<(Vec<i128>, &[u8]), ReadError>
    ensures { Gives (λ x. (x.0.items, x.1.now)) result (numbers_at bytes.now) }
{
    list(alloc, bytes)
}

impl Part for Row {
    ghost Seen = { Row };

    ghost seen = { λ x. x };

    ghost part = { row_at };

    #[tactic(auto, unfolding(boot_fields::specs::Reading::row_at))]
    fn read(alloc: Global, bytes: &[u8]) -> Result<(Self, &[u8]), ReadError> {
        let (args, rest) = numbers(alloc, bytes)?;
        let (result, rest) = number_i128(rest)?;
        let row = Row {
            args: Listed::new(args),
            result,
        };
        Ok((row, rest))
    }
}

fn table(alloc: Global, bytes: &[u8]) -> Result<(HostModel, &[u8]), ReadError>
    ensures { Gives (λ x. (x.0, x.1.now)) result (mapped (λ p. model.Table p.0 p.1) (both (list_at row_at) signed128_at) bytes.now) }
{
    let (rows, rest) = list(alloc, bytes)?;
    let (other, rest) = number_i128(rest)?;
    let rows = Rows::new(alloc, rows)?;
    Ok((HostModel::Table { rows, other }, rest))
}

fn feed(alloc: Global, bytes: &[u8]) -> Result<(HostModel, &[u8]), ReadError>
    ensures { Gives (λ x. (x.0, x.1.now)) result (mapped (λ p. model.Feed p.0 p.1.0 p.1.1) (both numbers_at (both signed128_at number64_at)) bytes.now) }
{
    let (values, rest) = numbers(alloc, bytes)?;
    let (other, rest) = number_i128(rest)?;
    let (next, rest) = number_u64(rest)?;
    let model = HostModel::Feed {
        values: Listed::new(values),
        other,
        next,
    };
    Ok((model, rest))
}

impl Part for HostModel {
    ghost Seen = { HostModel };

    ghost seen = { λ x. x };

    ghost part = { model_at };

    #[tactic(auto, unfolding(boot_fields::specs::Reading::model_at))]
    fn read(alloc: Global, bytes: &[u8]) -> Result<(Self, &[u8]), ReadError> {
        match bytes {
            [] => Err(ReadError::Bad),
            [0, rest @ ..] => table(alloc, rest),
            [1, rest @ ..] => feed(alloc, rest),
            [2, rest @ ..] => {
                let (next, rest) = number_u64(rest)?;
                Ok((HostModel::Input { next }, rest))
            }
            [3, rest @ ..] => Ok((HostModel::Bytes, rest)),
            [4, rest @ ..] => {
                let (name, rest) = text(alloc, rest)?;
                Ok((HostModel::Line { name }, rest))
            }
            [_, ..] => Err(ReadError::Bad),
        }
    }
}
