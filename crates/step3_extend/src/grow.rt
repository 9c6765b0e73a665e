// Step 3 of 01 from its first run on: wakes the least slot that touches the set and helps, while volume is short. The table stands for its
// set of awake slots and is kept as the run of earliest deadline first over them, with the books of the run by rank.
ghost use Rattle.std.specs.Prelude.{◌≡◌, position, false, not, ◌&&◌, ◌≤◌, ◌<◌, length, set};
ghost use Rattle.sched.specs.Jobs.{Jobs};
ghost use Rattle.sched.specs.Slots.{awake, awake_of, touches, wakeful};
ghost use Rattle.laws_extension.specs.Waking.Cursor.{cursor_after};
ghost use Rattle.step3_slot.specs.Books.{SameLists};
ghost use Rattle.step3_extend.specs.Turns.{Alone, EndedBefore, Growing, Extended};

use sched::ASLEEP;
use step3_slot::{Books, Note};

fn is_awake(books: &Books<'_>, t: usize) -> bool
    ensures { result ≡ awake (awake_of books.now.table.now) t }
{
    t < books.table.len() && books.table[t] != ASLEEP
}

fn is_near(books: &Books<'_>, t: usize) -> bool
    requires { t < length books.now.table.now }
    ensures { result ≡ touches (awake_of books.now.table.now) t }
{
    (0 < t && books.table[t - 1] != ASLEEP) || is_awake(books, t + 1)
}

// Slot t sleeps and touches the set.
fn is_next(books: &Books<'_>, t: usize) -> bool
    requires { t < length books.now.table.now }
    ensures { result ≡ not (awake (awake_of books.now.table.now) t) && touches (awake_of books.now.table.now) t }
{
    books.table[t] == ASLEEP && is_near(books, t)
}

// No slot before the answer touches the set.
fn first_near(books: &Books<'_>) -> usize
    ensures { Alone (awake_of books.now.table.now) result }
{
    for t in 0..books.table.len() {
        if books.table[t] != ASLEEP {
            return t.saturating_sub(1);
        }
    }
    0
}

// Where the search goes on after slot x is woken: at the slot before, if only now it touches the set.
fn go_on_from(books: &Books<'_>, x: usize) -> usize
    requires { x < length books.now.table.now }
    ensures { result ≡ cursor_after (set (awake_of books.now.table.now) x false) x }
{
    if x == 0 {
        return 1;
    }
    if books.table[x - 1] != ASLEEP {
        return x + 1;
    }
    if x == 1 {
        return 0;
    }
    if books.table[x - 2] != ASLEEP {
        return x + 1;
    }
    x - 1
}

// The first rank from `near` on that is due after slot x, or one behind the last.
fn due_from(x: usize, deadlines: &[u16], near: usize) -> usize
    requires { near ≤ length deadlines.now }
    ensures { result ≤ length deadlines.now }
{
    let n = deadlines.len();
    for k in near..n {
        if x < deadlines[k] as usize {
            return k;
        }
    }
    n
}

// The first rank that is due after slot x; `near` is where to start looking.
fn first_due_after(x: usize, deadlines: &[u16], near: usize) -> usize
    requires { near ≤ length deadlines.now }
    ensures { EndedBefore x deadlines.now result }
{
    for k in (0..due_from(x, deadlines, near)).rev() {
        if deadlines[k] as usize <= x {
            return k + 1;
        }
    }
    0
}

// Wakes a slot a turn, `shortfall` slots in all. Releases and deadlines go by rank.
pub fn grow(
    releases: &[u16],
    deadlines: &[u16],
    ranks: &[u8],
    books: &mut Books<'_>,
    shortfall: u32,
)
    requires { (J : Jobs) × Growing J releases.now deadlines.now ranks.now books.old.lost.now books.old.reach.now books.old.ends.now
        books.old.table.now shortfall 0 0 }
    ensures extended { (J : Jobs) → Growing J releases.now deadlines.now ranks.now books.old.lost.now books.old.reach.now books.old.ends.now
        books.old.table.now shortfall 0 0 → Extended J books.new.table.now shortfall }
    ensures same_lists { SameLists books.old books.new }
{
    let mut notes = [Note { taker: 0, slot: 0 }; 64];
    let mut cursor = first_near(books);
    let mut first = 0;
    for _woken in 0..shortfall {
        // kept: a named form of docs/DECISIONS.md; the search ends at a slot that helps, which is no count
        let x = 'search: loop {
            if is_next(books, cursor) {
                first = first_due_after(cursor, deadlines, first);
                if books.wake(releases, ranks, cursor, first, &mut notes) {
                    break 'search cursor;
                }
            }
            cursor += 1;
        };
        cursor = go_on_from(books, x);
    }
}
