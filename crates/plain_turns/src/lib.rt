// The plain run: chronological selection over all pairs of tips (SHEETS 4, 5; the field's brute-force simulation).
#![tactic(auto)]

ghost use Rattle.std.specs.Prelude.{◌≡◌, ◌+◌, ◌*◌, ◌≤◌, ◌<◌, length};
ghost use Rattle.std.proofs.lemmas.List.Edits.{sets};
ghost use Rattle.fraction.specs.Sizes.{Timely};
ghost use Rattle.sheet.specs.HandedIn.{handed_in};
ghost use Rattle.sheet.specs.Listing.{◌∈◌};
ghost use Rattle.records.specs.Records.{Handed};
ghost use Rattle.records.specs.SheetIn.{sheet_in};
ghost use Rattle.rule.specs.RowBytes.{row_bytes, row_width};
ghost use Rattle.rule.specs.Selection.{roll_of};
ghost use Rattle.row.specs.Written.{Written};
ghost use Rattle.tips.specs.Tips.{tips_in};
ghost use Rattle.ending.specs.Ended.{next_row};
ghost use Rattle.ending.specs.Finished.{RoomFor};
ghost use Rattle.plain_turns.specs.Key.{Soonest, key_in, MayPick, Picked};
ghost use Rattle.plain_turns.specs.State.{AllKnown, Based, Held, Refreshed, Begun, State};

use cause::{Cause, Region};
use fraction::Fraction;
use records::Records;
use sheet::{Sheet, Track};
use tips::Tips;

// What the next tip to end is found by: ended tips behind the running ones, then by time, then by id.
// The order is a function and no `Ord`: times are compared only where they are Timely, and a comparison trait asks nothing of its arguments.
// All fields are words, 1 for an ended tip: with a bool and a u16 a copy carries gaps along, and 16 tracks take 5% longer.
#[derive(Clone, Copy)]
pub struct Key {
    pub ended: u64,
    pub at: Fraction,
    pub id: u64,
    pub tip: usize,
}

// The key that comes first.
fn first_of(a: Key, b: Key) -> Key
    requires { Timely a.at × Timely b.at }
    ensures { Soonest a b result }
{
    if a.ended != b.ended {
        return if a.ended < b.ended { a } else { b };
    }
    if !fraction::not_later(a.at, b.at) {
        return b;
    }
    if fraction::not_later(b.at, a.at) && b.id < a.id {
        return b;
    }
    a
}

// The key of the tip at i.
fn key_at(records: &Records, tips: &Tips, i: usize) -> Key
    requires { i < length (sheet_in records.now).tracks }
    ensures { result ≡ key_in (sheet_in records.now) (tips_in tips.now) i }
{
    let tip = &tips.all[i];
    Key {
        ended: u64::from(tip.ended),
        at: tip.best.at,
        id: u64::from(records.tracks()[i].id),
        tip: i,
    }
}

// The running tip that ends next, if one runs.
fn pick(records: &Records, tips: &Tips) -> usize
    requires { MayPick (sheet_in records.now) (tips_in tips.now) }
    ensures { Picked (sheet_in records.now) (tips_in tips.now) (length (sheet_in records.now).tracks) result }
{
    let mut best = key_at(records, tips, 0);
    for i in 1..records.tracks().len() {
        best = first_of(best, key_at(records, tips, i));
    }
    best.tip
}

// The first of the edge and all walls, for a track.
fn base_cause(records: &Records, a: Track) -> Cause
    requires { a ∈ (sheet_in records.now).tracks }
    ensures { Based (sheet_in records.now) a result }
{
    let sheet = Region {
        left: 0,
        right: 4096,
        low: 0,
        high: 4096,
    };
    look::look_walls(records, a, sheet, cause::edge_cause(a))
}

// Each tip looks at all walls and all tracks, none of which has ended.
fn begin(records: &Records, known: &[bool], tips: &mut Tips)
    requires { AllKnown known.now × Begun (sheet_in records.now) (tips_in tips.old) 0 }
    ensures { Begun (sheet_in records.now) (tips_in tips.new) (length (sheet_in records.now).tracks) }
{
    for (i, a) in records.tracks().iter().enumerate() {
        tips.all[i].base = base_cause(records, *a);
        look::look_again(records, i, tips, known);
    }
}

// Every running tip has a cause that counts.
fn refresh(records: &Records, known: &[bool], tips: &mut Tips)
    requires { AllKnown known.now × Held (sheet_in records.now) (tips_in tips.old) }
    ensures { Refreshed (sheet_in records.now) (tips_in tips.old) (tips_in tips.new) (length (sheet_in records.now).tracks) }
{
    for i in 0..records.tracks().len() {
        if look::stale(tips, i) {
            look::look_again(records, i, tips, known);
        }
    }
}

// The next row, the k-th, goes to its place.
fn take_turn(records: &Records, known: &[bool], tips: &mut Tips, k: usize, out: &mut [u8])
    requires { AllKnown known.now × State (sheet_in records.now) k (tips_in tips.old) × (k < length (sheet_in records.now).tracks) × RoomFor (sheet_in records.now) out.old }
    ensures { State (sheet_in records.now) (k + 1) (tips_in tips.new) × (out.new ≡ sets out.old (row_width * k) (row_bytes (next_row (sheet_in records.now) k))) }
{
    refresh(records, known, tips);
    let i = pick(records, tips);
    let ending = ending::ending_of(tips.all[i].best);
    ending::end_tip(records, i, ending, k, tips, out);
}

// All rows, in the roll's order.
fn take_turns(records: &Records, known: &[bool], tips: &mut Tips, out: &mut [u8])
    requires { AllKnown known.now × State (sheet_in records.now) 0 (tips_in tips.old) × RoomFor (sheet_in records.now) out.old }
    ensures { Written (roll_of (sheet_in records.now)) out.old out.new }
{
    for k in 0..records.tracks().len() {
        take_turn(records, known, tips, k, out);
    }
}

// The roll of an accepted sheet. Every tip knows every other.
pub fn roll(sheet: Sheet, out: &mut [u8])
    requires { Handed sheet × (row_width * sheet.ntracks ≤ length out.old) }
    ensures { Written (roll_of (handed_in sheet)) out.old out.new }
{
    let records = Records { sheet };
    let known = [true; 256];
    let mut tips = Tips::new();
    begin(&records, &known, &mut tips);
    take_turns(&records, &known, &mut tips, out);
}
