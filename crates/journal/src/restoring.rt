// Putting a record's bytes back, and taking the record back.
ghost use Rattle.std.specs.Prelude.{◌≡◌, ◌+◌, ◌*◌, ◌≤◌, length};
ghost use Rattle.layout.specs.Limits.{max_journal};
ghost use Rattle.layout.specs.Lists.{interval};
ghost use Rattle.layout.specs.Bytes.{be32, bytes4, zeros, splice};
ghost use Rattle.journal.specs.Journal.{restored, undone_image, undone_journal, last_record};
ghost use Rattle.journal.specs.Walks.Undoing.{Saved, Last};

// Puts back the bytes of the k blocks of the record at `at`, all below n.
fn restore(image: &mut [u8], journal: &[u8], n: usize, at: usize, k: usize)
    requires { Saved image.old journal.now n at k }
    ensures { image.new ≡ restored image.old journal.now at (interval 0 k) }
{
    for i in 0..k {
        let p = at + 4 + 516 * i;
        let a = 512 * layout::number::get32(journal, p) as usize;
        let e = a + 512;
        let f = p + 4;
        let g = f + 512;
        layout::bytes::copy(&journal[f..g], &mut image[a..e]);
    }
}

// Zeroes the last record, which has `size` bytes, and lowers the used length to where it began.
fn drop_record(journal: &mut [u8], at: usize, size: usize)
    requires { (5 ≤ length journal.old) × (at + size ≤ length journal.old) × (length journal.old ≤ max_journal) }
    ensures { journal.new ≡ splice (splice journal.old at (zeros size)) 1 (bytes4 at) }
{
    let e = at + size;
    journal[at..e].fill(0);
    volume::number::put32(journal, 1, at as u32);
}

// Takes the last record back, which begins at `at`: its bytes go into the image. Gives its length.
pub fn take_back(image: &mut [u8], journal: &mut [u8], at: usize) -> u32
    requires { Last image.old journal.old at }
    ensures size { result ≡ be32 journal.old (last_record journal.old) }
    ensures image { image.new ≡ undone_image image.old journal.old }
    ensures journal { journal.new ≡ undone_journal journal.old }
{
    let n = image.len() / 512;
    let size = layout::number::get32(journal, at);
    let k = (size as usize - 4) / 516;
    restore(image, journal, n, at, k);
    drop_record(journal, at, size as usize);
    size
}
