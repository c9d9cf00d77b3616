// Prints the numbers of document 01, "Checked by hand": message lengths, what a box sends, echoes, bucket sizes.
#![tactic(auto)]

ghost use Rattle.plan.specs.Plan.{InRange};

use std::{fmt, io};

// The name of round k, without the zeros behind it.
#[derive(Clone, Copy)]
struct Name(usize);

impl fmt::Display for Name {
    fn fmt<W: fmt::Write>(&self, f: &mut fmt::Formatter<W>) -> fmt::Result {
        for b in plan::round_name(self.0) {
            if b == 0 {
                break;
            }
            f.write_char(char::from(b))?;
        }
        Ok(())
    }
}

// A round's number, name and message length.
fn messages(rt: &impl Print, n: usize, l: usize) -> io::Result<()>
    requires { InRange n l }
{
    for k in (1..=plan::FAAND).filter(|&k| plan::is_round(n, k)) {
        println!(rt; "{k} {} {}", Name(k), plan::msg_len(n, l, k))?;
    }
    Ok(())
}

fn main(rt: HostRuntime) -> io::Result<()> {
    println!(rt; "2 parties, 1 result")?;
    messages(&rt, 2, 1)?;
    println!(rt; "sum {}", plan::sent(2, 1))?;
    println!(rt; "3 parties, 1 result: sent {}", plan::sent(3, 1))?;
    println!(rt; "echo among 3 {}", plan::msg_len(3, 1, 2))?;
    println!(rt; "echo among 8 {}", plan::msg_len(8, 1, 2))?;
    for l in [3099, 3100, 279999, 280000] {
        println!(rt; "bucket {l} {}", plan::bucket_size(l))?;
    }
    Ok(())
}
