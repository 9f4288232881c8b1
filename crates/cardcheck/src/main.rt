// Reads a card file of up to 65,536 bytes from standard input and says in one line what it comes to: the counts of an accepted file's
// frequencies, mains, satellites and shallow constituents, or the refusal's number and line.
#![tactic(auto)]

use card_file::counts;
use card_file::counts::Counts;
use std::io;

// A number, with a blank before it.
fn put(rt: &impl Print, n: u64) -> io::Result<()> {
    rt.write_all(b" ")?;
    rt.print(n)
}

fn report(rt: &impl Print, counts: Counts) -> io::Result<()> {
    if counts.number == 0 {
        rt.write_all(b"accepted")?;
        put(rt, counts.frequencies as u64)?;
        put(rt, counts.mains as u64)?;
        put(rt, counts.satellites as u64)?;
        put(rt, counts.shallows as u64)?;
    } else {
        rt.write_all(b"refused")?;
        put(rt, counts.number as u64)?;
        put(rt, counts.line as u64)?;
    }
    rt.write_all(b"\n")
}

fn main(rt: HostRuntime) -> io::Result<()> {
    let mut file = [0u8; 65536];
    let n = files::read_full(&mut rt.stdin(), &mut file);
    report(&rt, counts::check_cards(&file[..n]))
}
