// Plan records read back and handed out by runs: the records that 01 and 02 work by hand and that of docs/BYTES.md, each refusal at its first and last
// place, several faults at once, tables of all kinds, all records of a few bytes, and damaged ones. `stdout` was worked out apart from this
// program, by another implementation.
#![tactic(auto)]

mod answer; // answer.rt: an answer as numbers
mod show; // show.rt: answers as text
mod cases; // cases.rt: the calls on one record, printed
mod worked; // worked.rt: the three records of the documents
mod cuts; // cuts.rt: cut records, bytes left over, horizons
mod padding; // padding.rt: bits of the last map byte
mod slots; // slots.rt: bad slot bytes
mod order; // order.rt: several faults
mod limits; // limits.rt: lengths of tables, numbers of runs
mod mix; // mix.rt: answers in a digest
mod runs; // runs.rt: all runs of a record
mod stretches; // stretches.rt: a table
mod tables; // tables.rt: tables written and read back
mod tally; // tally.rt: the answers for many records
mod every; // every.rt: all records of a few bytes
mod damage; // damage.rt: damaged records

// Each refusal.
fn refusals() {
    cuts::paper();
    cuts::page();
    cuts::horizons();
    padding::each();
    slots::each();
    order::each();
    limits::tables();
    limits::runs();
}

fn main() {
    worked::paper();
    worked::card();
    worked::page();
    refusals();
    tables::each();
    every::each();
    damage::each();
}
