// Writing the models of hosts.
ghost use Rattle.pt_tree.specs.declared.row.Row.{Row};
ghost use Rattle.pt_tree.specs.declared.host_model.HostModel.{HostModel};
ghost use Rattle.boot_fields.specs.Spelling.{row_bytes, model_bytes};
ghost use Rattle.boot_fields.specs.Limits.{FitsRow, FitsModel};

use crate::lists::{Spelled, put_list};
use boot_fields::put_text;
use pt_tree::{HostModel, Row};
use std::alloc::AllocError;
use wire::{put_byte, put_i128, put_u64};

impl Spelled for Row {
    ghost Seen = { Row };

    ghost seen = { λ x. x };

    ghost spelling = { row_bytes };

    ghost Fits = { FitsRow };

    #[tactic(auto, using(std::proofs::Common::append_assoc))]
    fn put(&self, out: &mut Vec<u8>) -> Result<(), AllocError> {
        put_list(out, self.args.as_slice())?;
        put_i128(out, &self.result)
    }
}

impl Spelled for HostModel {
    ghost Seen = { HostModel };

    ghost seen = { λ x. x };

    ghost spelling = { model_bytes };

    ghost Fits = { FitsModel };

    #[tactic(auto, using(std::proofs::Common::append_assoc))]
    fn put(&self, out: &mut Vec<u8>) -> Result<(), AllocError> {
        match self {
            HostModel::Table { rows, other } => {
                put_byte(out, 0)?;
                put_list(out, rows.as_slice())?;
                put_i128(out, other)?;
            }
            HostModel::Feed {
                values,
                other,
                next,
            } => {
                put_byte(out, 1)?;
                put_list(out, values.as_slice())?;
                put_i128(out, other)?;
                put_u64(out, *next)?;
            }
            HostModel::Input { next } => {
                put_byte(out, 2)?;
                put_u64(out, *next)?;
            }
            HostModel::Bytes => put_byte(out, 3)?,
            HostModel::Line { name } => {
                put_byte(out, 4)?;
                put_text(out, name)?;
            }
        }
        Ok(())
    }
}
