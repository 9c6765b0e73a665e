// The reader's answers to many inputs: how often each number came, and a digest of all.
use joblist::ListHeader;
use sched::Refusal;
use test_bytes::{Tally, first};

// A list as the reader gives it: what stands before the jobs, and three lists of 64 entries, the first of which hold the jobs.
#[derive(Drop)]
pub struct List {
    pub header: ListHeader,
    pub releases: [u16; 64],
    pub deadlines: [u16; 64],
    pub volumes: [u16; 64],
}

// Reads the bytes.
pub fn read(bytes: &[u8]) -> Result<List, Refusal> {
    let mut releases = [0u16; 64];
    let mut deadlines = [0u16; 64];
    let mut volumes = [0u16; 64];
    let header = joblist::read(bytes, &mut releases, &mut deadlines, &mut volumes)?;
    Ok(List {
        header,
        releases,
        deadlines,
        volumes,
    })
}

impl List {
    // Whether the list is written as just these bytes, with 64 bytes lent.
    fn is_written(&self, bytes: &[u8]) -> bool {
        let mut out = [9u8; 64];
        let n = self.header.count;
        match joblist::write(
            self.header.h,
            self.header.q,
            first(&self.releases, n),
            first(&self.deadlines, n),
            first(&self.volumes, n),
            &mut out,
        ) {
            Ok(size) => bytes == first(&out, size),
            Err(_) => false,
        }
    }

    // The list into the digest: 0, H, q and the count, then release, deadline and volume of each job.
    fn mix<const N: usize>(&self, tally: &mut Tally<N>) {
        let n = self.header.count;
        tally.mix(0);
        tally.mix(u64::from(self.header.h));
        tally.mix(u64::from(self.header.q));
        tally.mix(n as u64);
        let jobs = first(&self.releases, n)
            .iter()
            .zip(first(&self.deadlines, n))
            .zip(first(&self.volumes, n));
        for ((&r, &d), &p) in jobs {
            tally.mix(u64::from(r));
            tally.mix(u64::from(d));
            tally.mix(u64::from(p));
        }
    }
}

// Reads the bytes, and tells whether they are a list. Counts the number, 0 for a list, and at 27 a list that is written as the same bytes.
pub fn note<const N: usize>(tally: &mut Tally<N>, bytes: &[u8]) -> bool {
    match read(bytes) {
        Ok(list) => {
            tally.count(0);
            if list.is_written(bytes) {
                tally.count(27);
            }
            list.mix(tally);
            true
        }
        Err(r) => {
            tally.count(r.number() as usize);
            tally.mix(u64::from(r.number()));
            tally.mix(r.place() as u64);
            false
        }
    }
}

// Prints how often 0, 11 to 16, 25 and 26 came.
pub fn show<const N: usize>(tally: &Tally<N>) {
    tally.show(&[0, 11, 12, 13, 14, 15, 16, 25, 26]);
}

// Prints how many lists were written as the same bytes, and the digest; ends the line.
pub fn end<const N: usize>(tally: &Tally<N>) {
    tally.show(&[27]);
    test_bytes::number(tally.sum);
    test_bytes::end_line();
}
