// The published FNV-1a vectors of 32 bits, from the test suite of Landon Curt Noll, and the digests
// of two states: a line for each, the digest in hex and then what it is of. The file `stdout` holds
// what the model of second/ gives, which is what the authors publish.

#![tactic(auto)]

use digest::Digest;
use std::io;

fn main(rt: HostRuntime) -> io::Result<()> {
    texts(&rt)?;
    four_bytes(&rt)?;
    states(&rt)
}

// Texts, each also with the zero byte that ends it in C, as a digest continued.
fn texts(rt: &impl Print) -> io::Result<()> {
    let texts = [
        "",
        "a",
        "b",
        "c",
        "d",
        "e",
        "f",
        "fo",
        "foo",
        "foob",
        "fooba",
        "foobar",
        "chongo",
        "chongo was here!",
        "curds and whey",
        "hello",
        "127.0.0.1",
        "feedfacedeadbeef",
    ];
    for text in texts {
        let digest = Digest::new().bytes(text.as_bytes());
        println!(rt; "{:08x} \"{text}\"", digest.value)?;
        println!(rt; "{:08x} \"{text}\" and 00", digest.bytes(b"\0").value)?;
    }
    Ok(())
}

// Published vectors of four bytes, as the u32 and as the i32 that they are.
fn four_bytes(rt: &impl Print) -> io::Result<()> {
    let vectors = [
        ("ff 00 00 01", 16_777_471, 16_777_471),
        ("01 00 00 ff", 4_278_190_081, -16_777_215),
        ("cc 24 31 c4", 3_291_555_020, -1_003_412_276),
    ];
    for (bytes, unsigned, _) in vectors {
        println!(rt; "{:08x} {bytes} as u32", Digest::new().word(unsigned).value)?;
    }
    for (bytes, _, signed) in vectors {
        println!(rt;
            "{:08x} {bytes} as i32",
            Digest::new().words(&[signed]).value
        )?;
    }
    Ok(())
}

// What the two runs of document 01, 'The program', end in.
fn states(rt: &impl Print) -> io::Result<()> {
    let ends = [
        ("steps 0, state 0 256 0 0 0", 0, [0, 256, 0, 0, 0]),
        ("steps 3, state 50 256 14 0 9", 3, [50, 256, 14, 0, 9]),
    ];
    for (label, steps, state) in ends {
        println!(rt; "{:08x} {label}", Digest::of_state(steps, &state).value)?;
    }
    Ok(())
}
