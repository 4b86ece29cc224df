// The hosts heard: one u64, with bit i - 1 for host i. An index counts from 0: host i has index i - 1.
#![tactic(auto)]

ghost use Rattle.std.specs.Prelude.{◌≡◌, ◌++◌, length, drop};
ghost use Rattle.arrival_heard.specs.Heard.{is_heard, some_above, lowest};

// The host with this index is heard.
#[tactic(auto, unfolding(crate::specs::Heard::is_heard))]
pub fn is_heard(heard: u64, index: u32) -> bool
    ensures { result ≡ is_heard heard index }
{
    index < u64::BITS && (heard >> index) % 2 == 1
}

// A host above that many is heard.
pub fn some_above(hosts: u32, heard: u64) -> bool
    ensures { result ≡ some_above hosts heard }
{
    hosts < u64::BITS && 1u64 << hosts <= heard
}

// Writes the indices of the lowest-numbered hosts heard, as many as have room; the rest of the output stays as it was.
pub fn lowest_heard(heard: u64, out: &mut [u32])
    ensures { let room = out.old in let found = lowest (length room) heard 64 in
        out.new ≡ found ++ drop (length found) room }
{
    let mut n = 0;
    for index in 0..u64::BITS {
        if n < out.len() && is_heard(heard, index) {
            out[n] = index;
            n += 1;
        }
    }
}
