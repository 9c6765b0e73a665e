// Job lists read and written: the list worked out in hex, each refusal at its first and its last place, the longest list, the list in hex
// with one byte changed, and faulty jobs. `stdout` was worked out apart from this program.
#![tactic(auto)]

ghost use Rattle.std.specs.Prelude.{◌≤◌};

use joblist::ListHeader;
use show::Lists;
use test_bytes::{first, put};

mod show; // show.rt: what a case prints
mod longest; // longest.rt: the longest list
mod faulty; // faulty.rt: faulty jobs at the first, a middle and the last place

// Three jobs: (0,3,1) (8,10,2) (0,10,5), horizon 10, wake cost 3.
const EXAMPLE: [u8; 16] = [10, 0, 3, 0, 3, 2, 3, 0, 5, 8, 0, 2, 0, 4, 5, 0];

// Reads into the three lists, and prints a line: `read`, then what `write_back` prints of a list that was read, or the refusal and
// whether each list is as it was lent.
fn read_into(bytes: &[u8], releases: &mut [u16], deadlines: &mut [u16], volumes: &mut [u16]) {
    test_bytes::text(b"read");
    let answer = joblist::read(bytes, releases, deadlines, volumes);
    let lists = Lists {
        releases,
        deadlines,
        volumes,
    };
    match answer {
        Ok(list) => write_back(list, bytes, lists),
        Err(r) => show::not_read(r, lists),
    }
    test_bytes::end_line();
}

// Prints a list that was read, whether writing it gives the bytes read, and for each lent list whether its entries past the count were kept. It is
// written to 454 bytes that hold 9; printed are the length and whether these are the bytes read and the next one is kept, or the refusal.
fn write_back(list: ListHeader, bytes: &[u8], lists: Lists) {
    let mut out = [9u8; 454];
    show::list(list, lists);
    match joblist::write(
        list.h,
        list.q,
        first(lists.releases, list.count),
        first(lists.deadlines, list.count),
        first(lists.volumes, list.count),
        &mut out,
    ) {
        Ok(n) => show::same(n, bytes, &out),
        Err(r) => show::refused(r),
    }
    lists.show_kept(list.count);
}

// Reads into lists of these lengths that hold 7777; the bounds are for safety, since there are 65 entries.
fn read_with(bytes: &[u8], releases: usize, deadlines: usize, volumes: usize)
    requires { (releases ≤ 65) × (deadlines ≤ 65) × (volumes ≤ 65) }
{
    let mut first = [7777u16; 65];
    let mut second = [7777u16; 65];
    let mut third = [7777u16; 65];
    read_into(
        bytes,
        &mut first[..releases],
        &mut second[..deadlines],
        &mut third[..volumes],
    );
}

// Reads into lists of 64 entries.
fn read(bytes: &[u8]) {
    read_with(bytes, 64, 64, 64);
}

// Writes a list to `out`, and prints a line: `write`, then the length or the refusal, then what `out` holds.
fn write(h: u16, q: u16, releases: &[u16], deadlines: &[u16], volumes: &[u16], out: &mut [u8]) {
    test_bytes::text(b"write");
    match joblist::write(h, q, releases, deadlines, volumes, out) {
        Ok(n) => show::written(n),
        Err(r) => show::refused(r),
    }
    show::bytes(out);
    test_bytes::end_line();
}

// 11 and 12 at their first places.
fn first_headers() {
    read(&EXAMPLE);
    read(b"");
    read(b"\x0a\x00\x03\x00");
    read(b"\x0a\x00\x03\x00\x01");
    read(b"\x0a\x00\x03\x00\x01\x07");
    read(b"\x00\x00\x03\x00\xff");
}

// 12, and 13.
fn first_bits() {
    read(b"\x01\x10\x03\x00\x00");
    read(b"\x00\x10\x03\x00\x00");
    read(b"\x0a\x00\x03\x00\x41");
    read(b"\x0a\x00\x03\x00\x01\x08");
    read(b"\x0a\x00\x03\x00\x01\x80");
}

// 14.
fn first_fields() {
    read(b"\x0a\x00\x03\x00\x01\x01\x00\x00");
    read(b"\x0a\x00\x03\x00\x01\x03\x00\x00\x0a");
    read(b"\x0a\x00\x03\x00\x01\x07\x01\x00\x0a\x00\x01\x00");
    read(b"\x0a\x00\x03\x00\x01\x07\x01\x00\x09\x00\x01\x00");
    read(b"\x0a\x00\x03\x00\x01\x02\x0a\x00");
    read(b"\x0a\x00\x03\x00\x01\x04\x01\x00");
}

// 15, 25, 26, and 16; 14 comes before the three.
fn first_jobs() {
    read(b"\x0a\x00\x03\x00\x01\x03\x04\x00\x04\x00");
    read(b"\x0a\x00\x03\x00\x01\x03\x03\x00\x04\x00");
    read(b"\x0a\x00\x03\x00\x01\x02\x0b\x00");
    read(b"\x0a\x00\x03\x00\x01\x06\x04\x00\x00\x00");
    read(b"\x0a\x00\x03\x00\x01\x07\x0b\x00\x0b\x00\x01\x00");
    read(b"\x0a\x00\x03\x00\x01\x02\xff\xff");
    read(b"\x0a\x00\x03\x00\x00");
    read(b"\x0a\x00\x03\x00\x00\x00");
}

// Reads the first n bytes of the longest list and one byte more, with the byte at one offset changed.
fn long_with(at: usize, value: u8, n: usize) {
    let mut bytes = longest::LONGEST;
    put(&mut bytes, at, value);
    read(first(&bytes, n));
}

// The same refusals at their last places.
fn last_places() {
    long_with(0, 0, 453);
    long_with(0, 0, 454);
    long_with(0, 0, 452);
    long_with(0, 0, 446);
    long_with(446, 8, 453);
    long_with(446, 255, 447);
    long_with(451, 1, 453);
    long_with(449, 1, 453);
    long_with(451, 0, 453);
    long_with(4, 65, 453);
    long_with(4, 255, 453);
    long_with(1, 17, 453);
}

// 17 with each list too short in turn.
fn short_lists() {
    let bytes = longest::LONGEST;
    read_with(&bytes, 63, 64, 65);
    read_with(&bytes, 64, 63, 65);
    read_with(&bytes, 65, 64, 63);
}

// The header is looked at before 17, the jobs are not; 17 at its first place.
fn short_heads() {
    read_with(b"\x0a\x00\x03\x00\x40", 64, 63, 65);
    read_with(b"\x0a\x00\x03\x00\x41", 64, 63, 65);
    read_with(b"\x0a\x00\x03\x00\x02\x00\x00", 64, 65, 1);
    read_with(b"\x0a\x00\x03\x00\x01\x00", 64, 65, 1);
    read_with(b"\x0a\x00\x03\x00\x01\x00", 0, 0, 0);
}

// Writes the three jobs of the example, with only so many deadlines and volumes.
fn write_example(h: u16, deadlines: usize, volumes: usize, out: &mut [u8]) {
    let rs = [0u16, 8, 0];
    let ds = [3u16, 10, 10];
    let ps = [1u16, 2, 5];
    write(h, 3, &rs, first(&ds, deadlines), first(&ps, volumes), out);
}

// The writer's refusals, in their order, and buffers that are just long enough and one byte short.
fn writer() {
    let mut out = [9u8; 16];
    let mut short = [9u8; 15];
    write_example(10, 3, 3, &mut out);
    write_example(10, 3, 3, &mut short);
    write_example(9, 3, 3, &mut short);
    write_example(0, 3, 0, &mut out);
    write_example(4097, 3, 3, &mut out);
    write_example(10, 3, 0, &mut out);
    write_example(10, 0, 3, &mut out);
}

// Writes no job (n = 0), or just the one.
fn write_few(n: usize, h: u16, q: u16, r: u16, d: u16, p: u16, out: &mut [u8]) {
    let rs = [r];
    let ds = [d];
    let ps = [p];
    write(h, q, first(&rs, n), first(&ds, n), first(&ps, n), out);
}

// No job, one job, and 17 at its first place.
fn short_writer() {
    let mut out = [9u8; 16];
    let mut short = [9u8; 4];
    write_few(0, 4096, 65535, 0, 0, 0, &mut out);
    write_few(1, 10, 3, 4, 4, 1, &mut out);
    write_few(1, 10, 3, 4, 5, 0, &mut out);
    write_few(0, 4096, 65535, 0, 0, 0, &mut short);
}

// Writes 64 jobs (1, 2, 65535), 453 bytes long, but with other releases for the first and the last.
fn write_64(first: u16, last: u16, out: &mut [u8]) {
    let mut releases = [1u16; 64];
    let deadlines = [2u16; 64];
    let volumes = [65535u16; 64];
    releases[0] = first;
    releases[63] = last;
    write(4096, 0, &releases, &deadlines, &volumes, out);
}

// Writes a list of 65 releases and deadlines and so many volumes, all 1.
fn write_65(h: u16, volumes: usize, out: &mut [u8]) {
    let many = [1u16; 65];
    write(h, 0, &many, &many, first(&many, volumes), out);
}

// 64 and 65 jobs.
fn long_writer() {
    let mut out = [9u8; 453];
    let mut short = [9u8; 452];
    write_64(1, 1, &mut short);
    write_64(1, 1, &mut out);
    write_64(1, 2, &mut short);
    write_64(2, 2, &mut short);
    write_65(4096, 65, &mut short);
    write_65(4096, 64, &mut short);
    write_65(0, 64, &mut short);
}

// Reads the list in hex with one byte changed.
fn example_with(at: usize, value: u8) {
    let mut bytes = EXAMPLE;
    put(&mut bytes, at, value);
    read(&bytes);
}

// Reads it with each byte changed to each of ten values.
fn damage_each() {
    for at in 0..16 {
        for value in [0, 1, 2, 3, 4, 7, 8, 10, 64, 255] {
            example_with(at, value);
        }
    }
}

fn main() {
    first_headers();
    first_bits();
    first_fields();
    first_jobs();
    last_places();
    short_lists();
    short_heads();
    writer();
    short_writer();
    long_writer();
    damage_each();
    faulty::each();
}
