// The length of a list's bytes, and the bytes.
ghost use Rattle.std.specs.Prelude.{◌≡◌, ◌+◌, ◌≤◌, length};
ghost use Rattle.std.proofs.lemmas.List.Edits.{sets};
ghost use Rattle.sched.specs.Jobs.{jobs_of};
ghost use Rattle.list_parts.specs.Header.{header_length};
ghost use Rattle.joblist.specs.Bytes.{entries_bytes, spelling};
ghost use Rattle.joblist.specs.Parts.{EqualLists};

// The jobs of a list in three lists of one length, and the horizon, which an absent deadline means.
#[derive(Clone, Copy)]
pub struct Lists<'a> {
    pub h: u16,
    pub releases: &'a [u16],
    pub deadlines: &'a [u16],
    pub volumes: &'a [u16],
    ghost equal: { EqualLists releases.now deadlines.now volumes.now },
}

impl<'a> Lists<'a> {
    // The length of the bytes of a list.
    pub fn size(&self) -> usize
        ensures { result ≡ header_length + length (entries_bytes self.now.h self.now.releases.now self.now.deadlines.now self.now.volumes.now) }
    {
        let mut n = 5;
        for job in 0..self.releases.len() {
            n += list_parts::writer::entry_size(
                self.h,
                self.releases[job],
                self.deadlines[job],
                self.volumes[job],
            );
        }
        n
    }

    fn put_entries(&self, out: &mut [u8])
        requires { header_length
            + length (entries_bytes self.now.h self.now.releases.now self.now.deadlines.now self.now.volumes.now) ≤ length out.old }
        ensures { out.new ≡ sets out.old header_length
            (entries_bytes self.now.h self.now.releases.now self.now.deadlines.now self.now.volumes.now) }
    {
        let mut at = 5;
        for job in 0..self.releases.len() {
            at = list_parts::writer::put_entry(
                self.h,
                self.releases[job],
                self.deadlines[job],
                self.volumes[job],
                at,
                out,
            );
        }
    }

    // The bytes of a list that passes the checks, into a buffer that holds them.
    pub fn put(&self, q: u16, out: &mut [u8])
        requires { header_length
            + length (entries_bytes self.now.h self.now.releases.now self.now.deadlines.now self.now.volumes.now) ≤ length out.old }
        ensures { out.new ≡ sets out.old 0
            (spelling (jobs_of self.now.h q self.now.releases.now self.now.deadlines.now self.now.volumes.now)) }
    {
        list_parts::header::put(self.h, q, self.releases.len(), out);
        self.put_entries(out);
    }
}
