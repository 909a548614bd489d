// The checker of certificates (document 01's pull lists).
// Between `usize` and the stored types a number goes by `as`: there is no `From`, and `try_from` would test what is proved.
#![tactic(auto)]

mod arc;
mod judge;
mod rules;

ghost use Rattle.std.specs.Prelude.{◌≡◌};
ghost use Rattle.sheet.specs.Reading.{read_sheet};
ghost use Rattle.checker.specs.Verdict.{accepted, judgement, decided, check_answer};
ghost use Rattle.checker.specs.Shown.{ShownLeast};
ghost use Rattle.checker.specs.inside.Table.{table_decision};

use crate::judge::judge;
use arcs::Loaded;
use arcs::inside::load_sheet;
use arcs::limits::{MAX_ELEMENTS, MAX_FIRSTS};
use leb128::Refusal;
use leb128::refusals::SLICE_SHORT;

// Whether places are a drawing of a sheet and the list is a certificate that no drawing has a smaller total; excess elements
// are not looked at. A yes shows both, whoever made sheet, places and list.
pub fn check(bytes: &[u8], places: &[u16], list: &[i32]) -> Result<bool, Refusal>
    ensures answer { judgement result ≡ check_answer (read_sheet bytes.now) places.now list.now }
    ensures least { judgement result ≡ accepted → ShownLeast (read_sheet bytes.now) places.now }
{
    let mut first = [0u16; MAX_FIRSTS];
    let mut arcs = [0u32; MAX_ELEMENTS];
    let sheet = load_sheet(bytes, &mut first, &mut arcs)?;
    check_loaded(&sheet, places, list)
}

// The answer on a loaded sheet.
fn check_loaded(sheet: &Loaded, places: &[u16], list: &[i32]) -> Result<bool, Refusal>
    ensures { judgement result ≡ decided sheet.now.counts.nodes sheet.now.counts.arcs
        (table_decision sheet.now.arcs.now sheet.now.counts) places.now list.now }
{
    if places.len() < sheet.counts.nodes {
        return Err(Refusal::new(SLICE_SHORT, 0));
    }
    if list.len() < sheet.counts.arcs {
        return Err(Refusal::new(SLICE_SHORT, 0));
    }
    Ok(judge(sheet, places, list))
}
