// The decision on a loaded sheet, places and a list.
ghost use Rattle.std.specs.Prelude.{◌≡◌, ◌≤◌, length, take};
ghost use Rattle.checker.specs.inside.Table.{table_decision};

use crate::rules::{all_allowed, all_balanced, all_legal, bound};
use arcs::Loaded;
use totals::sheet_total;

// Places that are a drawing, a list that meets the rules, and the bound equal to the total.
fn judge_whole(sheet: &Loaded, places: &[u16], list: &[i32]) -> bool
    requires { (sheet.now.counts.arcs ≤ length list.now) × (length places.now ≡ sheet.now.counts.nodes) }
    ensures { result ≡ table_decision sheet.now.arcs.now sheet.now.counts places.now list.now }
{
    let n = sheet.counts.arcs;
    if !all_legal(sheet.arcs, places, n) {
        return false;
    }
    if !all_allowed(sheet.arcs, list, n) {
        return false;
    }
    if !all_balanced(sheet.arcs, list, sheet.counts.nodes, n) {
        return false;
    }
    i64::from(sheet_total(sheet, places)) == bound(sheet.arcs, list, n)
}

// The same for longer slices, whose excess is not looked at.
pub fn judge(sheet: &Loaded, places: &[u16], list: &[i32]) -> bool
    requires { (sheet.now.counts.arcs ≤ length list.now) × (sheet.now.counts.nodes ≤ length places.now) }
    ensures { result ≡ table_decision sheet.now.arcs.now sheet.now.counts (take sheet.now.counts.nodes places.now)
        (take sheet.now.counts.arcs list.now) }
{
    judge_whole(
        sheet,
        &places[..sheet.counts.nodes],
        &list[..sheet.counts.arcs],
    )
}
