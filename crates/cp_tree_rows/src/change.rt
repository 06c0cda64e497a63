ghost use Rattle.std.specs.Prelude.{◌^◌, ◌≡◌, ◌≤◌, ◌<◌, ◌+◌, ◌-◌, ◌++◌, T, suc, cond, [], length, take, drop};
ghost use Rattle.std.specs.declared.option.Option.TheVariants.{Some};
ghost use Rattle.cp_model.specs.Keyed.{get};
ghost use Rattle.cp_model.specs.declared.row.Content.TheVariants.{Node};
ghost use Rattle.cp_tree_rows.specs.Forest.{is_part, tree_of};
ghost use Rattle.cp_tree_rows.specs.Spots.{IsOpened, IsPiece, IsPut};

use crate::row::TreeRow;
use crate::search::child;
use cp_path::Label;

/// The rows from `start` on, up to the one before `end`.
#[derive(Clone, Copy)]
pub(crate) struct Span {
    pub(crate) start: usize,
    pub(crate) end: usize,
}

/// Gives one more than the index of the last child, where it is known to be, and else 0.
fn index_if(is_last: bool, at: usize) -> u32
    requires { at < 2 ^ 32 - 1 }
    ensures { result ≡ cond is_last (suc at) 0 }
{
    if is_last { at as u32 + 1 } else { 0 }
}

/// Finds the rows of the child with the label, or else the place where they would stand, which `added` rows will take.
fn open_here(rows: &[TreeRow], last: &mut u32, label: &Label, added: usize) -> Span
    requires part { T (is_part Node last.old rows.now) }
    requires room { length rows.now + added < 2 ^ 32 - 1 }
    ensures { IsOpened rows.now rows.now last.new result.start result.end [] label.now added }
{
    match child(rows, *last, label) {
        Ok(at) => {
            *last = 0;
            let row = &rows[at];
            Span {
                start: at,
                end: at + 1 + row.below as usize,
            }
        }
        Err(at) => {
            *last = index_if(added > 0 && at == rows.len(), at);
            Span { start: at, end: at }
        }
    }
}

/// Finds the rows of the child with the label below the place, or else where they would stand, and counts `added` rows
/// in their place, in all rows above. Costs what the search costs.
pub(crate) fn open(
    rows: &mut [TreeRow],
    last: &mut u32,
    place: &[Label],
    label: &Label,
    added: usize,
) -> Span
    requires part { T (is_part Node last.old rows.old) }
    requires node { get (tree_of Node rows.old) place.now ≡ Some Node }
    requires room { length rows.old + added < 2 ^ 32 - 1 }
    ensures { IsOpened rows.old rows.new last.new result.start result.end place.now label.now added }
{
    match place.split_first() {
        None => open_here(rows, last, label, added),
        Some((first, rest)) => match child(rows, *last, first) {
            Ok(at) => {
                let row = &rows[at];
                let below = row.below as usize;
                let mut inner_last = row.last;
                let end = at + 1 + below;
                let inner = &mut rows[at + 1..end];
                let span = open(inner, &mut inner_last, rest, label, added);
                *last = index_if(end == rows.len(), at);
                let row = &mut rows[at];
                row.last = inner_last;
                row.below = (below + added - (span.end - span.start)) as u32;
                Span {
                    start: at + 1 + span.start,
                    end: at + 1 + span.end,
                }
            }
            Err(_) => unreachable!(),
        },
    }
}

/// Moves the first `count` rows from `from` on behind all others. Moves each row from there on once.
fn rotate(rows: &mut [TreeRow], from: usize, count: usize)
    requires { from + count ≤ length rows.old }
    ensures { rows.new ≡ take from rows.old ++ (drop count (drop from rows.old) ++ take count (drop from rows.old)) }
{
    let tail = &mut rows[from..];
    tail.rotate_left(count);
}

/// Puts the rows from `len` on in the place of those of the span, which go to the end. Moves each row after `start`
/// twice at most.
fn turn(rows: &mut [TreeRow], len: usize, span: Span)
    requires order { span.start ≤ span.end }
    requires within { span.end ≤ len }
    requires few { len ≤ length rows.old }
    ensures { rows.new ≡ (take span.start rows.old ++ (drop len rows.old ++ drop span.end (take len rows.old))) ++ take (span.end - span.start) (drop span.start (take len rows.old)) }
{
    let added = rows.len() - len;
    rotate(rows, span.start, len - span.start);
    rotate(rows, span.start + added, span.end - span.start);
}

/// Puts the rows from `len` on, which are one child's or none, in the place of the child below the place, or where it
/// would stand. Says how many rows there are then: those that go come after them. Costs what the search costs, and
/// moves each row after that place twice at most.
fn arrange(
    rows: &mut [TreeRow],
    last: &mut u32,
    len: usize,
    place: &[Label],
    label: &Label,
) -> usize
    requires within { len ≤ length rows.old }
    requires part { T (is_part Node last.old (take len rows.old)) }
    requires node { get (tree_of Node (take len rows.old)) place.now ≡ Some Node }
    requires piece { IsPiece label.now (drop len rows.old) }
    requires room { length rows.old < 2 ^ 32 - 1 }
    ensures put { IsPut (take len rows.old) (take result rows.new) last.new place.now label.now (drop len rows.old) }
    ensures few { result ≤ length rows.old }
    ensures long { length rows.new ≡ length rows.old }
{
    let added = rows.len() - len;
    let kept = &mut rows[..len];
    let span = open(kept, last, place, label, added);
    turn(rows, len, span);
    rows.len() - (span.end - span.start)
}

/// Puts the rows from `len` on, which are one child's or none, in the place of the child below the place, or where it
/// would stand. Costs what the search costs, and moves each row after that place twice at most.
pub(crate) fn settle(
    rows: &mut Vec<TreeRow>,
    last: &mut u32,
    len: usize,
    place: &[Label],
    label: &Label,
)
    requires within { len ≤ length rows.old.items }
    requires part { T (is_part Node last.old (take len rows.old.items)) }
    requires node { get (tree_of Node (take len rows.old.items)) place.now ≡ Some Node }
    requires piece { IsPiece label.now (drop len rows.old.items) }
    requires room { length rows.old.items < 2 ^ 32 - 1 }
    ensures put { IsPut (take len rows.old.items) rows.new.items last.new place.now label.now (drop len rows.old.items) }
    ensures few { length rows.new.items ≤ length rows.old.items }
{
    let keep = arrange(rows, last, len, place, label);
    rows.truncate(keep);
}
