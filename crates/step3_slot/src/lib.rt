// Tries to wake a sleeping slot, without a second run: the slot takes the first job by rank that reaches it, and each job that has lost no
// unit hands on its last slot in turn, until a lost unit is gained. If none is, what was changed on the way is put back.
#![tactic(auto)]

ghost use Rattle.std.specs.Prelude.{◌≡◌, ◌<◌, length};
ghost use Rattle.laws_extension.specs.Chain.{end_below, reaches, gained_at};
ghost use Rattle.step3_slot.specs.Books.{Stops, Gainable, Booked, Tryable, Attempted, SameLists};
ghost use Rattle.step3_slot.specs.Notes.{Noteable, slot_held, Recallable, Undoable, Undone, takers_of, taken_of};

use sched::ASLEEP;

// The books of a run and its table: by rank the units that a job has lost, how far it reaches, and one more than its last slot.
// kept: three lists and no slice of structs, as orders::ranked makes them and RankBooks has them; a struct a rank would cost one more pass
#[derive(Drop)]
pub struct Books<'a> {
    pub lost: &'a mut [u16],
    pub reach: &'a mut [u16],
    pub ends: &'a mut [u16],
    pub table: &'a mut [u8],
}

// A note of what a chain changes: a rank, and the slot that it took.
#[derive(Clone, Copy)]
pub struct Note {
    pub taker: u8,
    pub slot: u16,
}

// What the slot of note i held: it slept if the note is the first, else the rank noted before had just given it up.
fn held(i: usize, notes: &[Note], ranks: &[u8]) -> u8
    requires { Recallable i (takers_of notes.now) ranks.now }
    ensures { result ≡ slot_held i (takers_of notes.now) ranks.now }
{
    if i == 0 {
        ASLEEP
    } else {
        ranks[notes[i - 1].taker as usize]
    }
}

impl Books<'_> {
    // Rank k may take the slot.
    fn reaches(&self, releases: &[u16], k: usize, at: usize) -> bool
        requires in_releases { k < length releases.now }
        requires in_reach { k < length self.now.reach.now }
        ensures { result ≡ reaches releases.now self.now.reach.now at k }
    {
        releases[k] as usize <= at && at < self.reach[k] as usize
    }

    // One more than the last slot below `below` that holds the byte; there is one, so the search needs no test for the table's start.
    fn end_below(&self, byte: u8, below: usize) -> usize
        requires { Stops byte below self.now.table.now }
        ensures { result ≡ end_below byte below self.now.table.now }
    {
        // kept: a for would test for the table's start on every step, and need a value for an end that no search comes to
        let mut s = below;
        while self.table[s - 1] != byte {
            s -= 1;
        }
        s
    }

    // Rank k gains the slot for one of its lost units.
    fn gain(&mut self, ranks: &[u8], k: usize, at: usize)
        requires { Gainable k at ranks.now self.old.lost.now self.old.reach.now self.old.ends.now self.old.table.now }
        ensures booked { Booked (gained_at ranks.now k at self.old.table.now self.old.lost.now self.old.reach.now self.old.ends.now)
            self.new.table.now self.new.lost.now self.new.reach.now self.new.ends.now }
        ensures same_lists { SameLists self.old self.new }
    {
        self.table[at] = ranks[k];
        let end = self.ends[k].max(at as u16 + 1);
        self.ends[k] = end;
        self.lost[k] -= 1;
        if self.lost[k] == 0 {
            self.reach[k] = end;
        }
    }

    // Puts back what the notes say, the last one first; the last rank of them gave up slot `last`.
    fn undo(&mut self, ranks: &[u8], last: usize, notes: &[Note])
        requires { Undoable (length notes.now) last (takers_of notes.now) (taken_of notes.now) ranks.now self.old.reach.now self.old.table.now }
        ensures undone { Undone (length notes.now) last (takers_of notes.now) (taken_of notes.now) ranks.now self.old.reach.now
            self.old.table.now self.new.reach.now self.new.table.now }
        ensures kept { (self.new.lost.now ≡ self.old.lost.now) × (self.new.ends.now ≡ self.old.ends.now) }
        ensures same_lists { SameLists self.old self.new }
    {
        let mut at = last;
        for i in (0..notes.len()).rev() {
            let note = notes[i];
            self.reach[note.taker as usize] = (at + 1) as u16;
            at = note.slot as usize;
            self.table[at] = held(i, notes, ranks);
        }
    }

    // Wakes slot x if that helps, and says whether it does; no rank before `first` is asked. The notes are lent for the call only: what they hold
    // at first is never read, and what they hold afterwards is left open. Notes of its own would have to be zeroed on every call.
    pub fn wake(
        &mut self,
        releases: &[u16],
        ranks: &[u8],
        x: usize,
        first: usize,
        notes: &mut [Note],
    ) -> bool
        requires tryable { Tryable x first releases.now ranks.now self.old.lost.now self.old.reach.now self.old.ends.now self.old.table.now }
        requires noteable { Noteable (takers_of notes.old) (taken_of notes.old) }
        ensures attempted { Attempted x first releases.now ranks.now self.old.lost.now self.old.reach.now self.old.ends.now self.old.table.now
            result self.new.lost.now self.new.reach.now self.new.ends.now self.new.table.now }
        ensures same_lists { SameLists self.old self.new }
    {
        // kept: notes with their number beside them, and no ArrayVec: that would be zeroed on every call, too
        let mut noted = 0;
        let mut at = x;
        for k in first..releases.len() {
            if !self.reaches(releases, k, at) {
                continue;
            }
            if 0 < self.lost[k] {
                self.gain(ranks, k, at);
                return true;
            }
            notes[noted] = Note {
                taker: k as u8,
                slot: at as u16,
            };
            noted += 1;
            let byte = ranks[k];
            self.table[at] = byte;
            at = self.reach[k] as usize - 1;
            self.reach[k] = self.end_below(byte, at) as u16;
        }
        self.undo(ranks, at, &notes[..noted]);
        false
    }
}
