// The lines of arrows.
ghost use Rattle.std.specs.Prelude.{◌≡◌, ◌++◌, OnOk};
ghost use Rattle.std.specs.List.{flat_map};
ghost use Rattle.std.specs.List.Sorted.{IsSorted};
ghost use Rattle.flow_picture.specs.Arrows.{arrow_cmp};
ghost use Rattle.flow_picture.specs.PictureText as is;

use crate::arrow::Arrow;
use crate::node::push_name;
use crate::search::has_arrow;
use stages::room_for;
use std::alloc::AllocError;

// appends how thick an arrow is
fn push_bold(bold: bool, text: &mut Vec<u8>) -> Result<(), AllocError>
    ensures { OnOk result (text.new.items ≡ text.old.items ++ is.bold_text bold) }
{
    if bold {
        text.extend_from_slice(b" [style=bold]")?;
    }
    Ok(())
}

// appends the line of an arrow, bold if it is one of these, which ascend
fn push_arrow(ways: &[Arrow], arrow: Arrow, text: &mut Vec<u8>) -> Result<(), AllocError>
    requires { IsSorted arrow_cmp ways.now }
    ensures { OnOk result (text.new.items ≡ text.old.items ++ is.arrow_line ways.now arrow) }
{
    text.extend_from_slice(b"  ")?;
    push_name(arrow.from, text)?;
    text.extend_from_slice(b" -> ")?;
    push_name(arrow.to, text)?;
    push_bold(has_arrow(ways, arrow), text)?;
    text.extend_from_slice(b";\n")
}

/// Appends the lines of arrows, of which those are bold that are among these, which ascend.
pub(crate) fn push_arrows(
    arrows: &[Arrow],
    ways: &[Arrow],
    text: &mut Vec<u8>,
) -> Result<(), AllocError>
    requires { IsSorted arrow_cmp ways.now }
    ensures { OnOk result (text.new.items ≡ text.old.items ++ flat_map (is.arrow_line ways.now) arrows.now) }
{
    for arrow in arrows {
        push_arrow(ways, *arrow, text)?;
        room_for(text.as_slice())?;
    }
    Ok(())
}
