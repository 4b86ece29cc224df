// The host's library for C: the two calls of `mukerihe` under their names. What they return is told by number.
#![tactic(auto)]

ghost use Rattle.std.specs.Prelude.{◌≡◌, length};
ghost use Rattle.refusal.specs.Chain.{first, unless_refused};
ghost use Rattle.mukerihe.specs.Host.{host_tests, host_after};
ghost use Rattle.mukerihe.specs.Answer.{host_answer, host_answer_tests, host_answer_after};

// The product of two shares as bytes: rows by inner times inner by columns. The output then holds it and 0 is returned; or the
// refusal number is returned, and no byte of the output changes.
// Stays: C's interface tells a refusal by its number, and how many bytes were written by a lent number.
#[unsafe(no_mangle)]
pub extern "C" fn mukerihe_product(
    modulus: u32,
    rows: u32,
    inner: u32,
    columns: u32,
    a: &[u8],
    b: &[u8],
    out: &mut [u8],
) -> u32
    ensures number { let xs = a.now in let ys = b.now in
        result ≡ first (host_tests modulus rows inner columns xs ys (length out.old)) }
    ensures block { let xs = a.now in let ys = b.now in
        out.new ≡ host_after modulus rows inner columns xs ys out.old }
{
    match mukerihe::mukerihe_product(modulus, rows, inner, columns, a, b, out) {
        Ok(()) => 0,
        Err(refusal) => refusal.number(),
    }
}

// A host's whole part: the message of its A share and that of its B share in, the message of its answer out. The answer then stands
// at the front of the output, and written is how many bytes it has; or the refusal number is returned, and nothing changes.
// Stays: C's interface tells a refusal by its number, and how many bytes were written by a lent number.
#[unsafe(no_mangle)]
pub extern "C" fn mukerihe_answer(a: &[u8], b: &[u8], out: &mut [u8], written: &mut usize) -> u32
    ensures number { result ≡ first (host_answer_tests a.now b.now (length out.old)) }
    ensures bytes { out.new ≡ host_answer_after a.now b.now out.old }
    ensures written { let xs = a.now in let ys = b.now in
        written.new
        ≡ unless_refused (host_answer_tests xs ys (length out.old)) (length (host_answer xs ys)) written.old }
{
    match mukerihe::mukerihe_answer(a, b, out) {
        Ok(count) => {
            *written = count;
            0
        }
        Err(refusal) => refusal.number(),
    }
}
