// Hand-made records and logs, sound and damaged in each way that document 01 names: a line for
// each, with what the library answers. The file `stdout` holds what the rules say.

#![tactic(auto)]

use record::{Buffer, Record};
use std::io;

fn main(rt: HostRuntime) -> io::Result<()> {
    sound_logs(&rt)?;
    damaged_logs(&rt)?;
    full_logs(&rt)?;
    parts(&rt)?;
    records_read(&rt)?;
    records_written(&rt)
}

fn sound_logs(rt: &impl Print) -> io::Result<()> {
    let sound: [(&str, &[u8]); 5] = [
        ("empty", b""),
        ("one record of zeros", b"\0\0\0\0\0\0\0\0"),
        ("the last place, the brake", b"\x1f\xbf\x02\0\x1f\x09\0\0"),
        ("by carrier", b"\0\0\0\0\0\x01\0\0\0\0\0\0\x01\x02\0\0"),
        ("by step", b"\0\0\0\0\x05\x01\0\0\x01\0\0\0\0\x02\0\0"),
    ];
    logs(rt, &sound)
}

fn damaged_logs(rt: &impl Print) -> io::Result<()> {
    let damaged: [(&str, &[u8]); 10] = [
        ("seven bytes", b"\0\0\0\0\0\0\0"),
        ("a record and a half", b"\0\0\0\0\0\0\0\0\x01\0\0\0"),
        ("seventh byte", b"\0\0\0\0\0\0\x01\0"),
        ("eighth byte", b"\0\0\0\0\0\0\0\x01"),
        ("carrier 32", b"\0\0\0\0\x20\0\0\0"),
        ("lever 10", b"\0\0\0\0\0\x0a\0\0"),
        ("step 180000", b"\x20\xbf\x02\0\0\0\0\0"),
        ("one place twice", b"\0\0\0\0\0\x01\0\0\0\0\0\0\0\x02\0\0"),
        ("step descends", b"\x01\0\0\0\0\x01\0\0\0\0\0\0\x05\x02\0\0"),
        (
            "carrier descends",
            b"\0\0\0\0\x01\x01\0\0\0\0\0\0\0\x02\0\0",
        ),
    ];
    logs(rt, &damaged)
}

fn logs(rt: &impl Print, logs: &[(&str, &[u8])]) -> io::Result<()> {
    for (name, bytes) in logs {
        log(rt, name, bytes)?;
    }
    Ok(())
}

const FULL: usize = Buffer::SIZE;

const ONE_MORE: usize = FULL + Record::SIZE;

// 2,048 records and one more.
fn full_logs(rt: &impl Print) -> io::Result<()> {
    let mut bytes = ascending();
    let (full, _) = bytes.split_at(FULL);
    log(rt, "2048 records", full)?;
    log(rt, "2049 records", &bytes)?;
    bytes[FULL - Record::SIZE] = 0;
    let (full, _) = bytes.split_at(FULL);
    log(rt, "2048 records, the last out of order", full)
}

// Each for carrier 0 of a step of its own.
fn ascending() -> [u8; ONE_MORE] {
    let mut bytes = [0u8; ONE_MORE];
    for step in 0..2_049u16 {
        let at = Record::SIZE * usize::from(step);
        bytes[at..at + 2].copy_from_slice(&step.to_le_bytes());
    }
    bytes
}

// The records of each step of a log: (0, 0, 1), (0, 3, 2), (2, 1, 9).
fn parts(rt: &impl Print) -> io::Result<()> {
    let three = b"\0\0\0\0\0\x01\0\0\0\0\0\0\x03\x02\0\0\x02\0\0\0\x01\x09\0\0";
    for step in [0, 1, 2, 3, u32::MAX] {
        print!(rt; "part, step {step}:")?;
        hex(rt, record::step_records(three, step))?;
    }
    print!(rt; "part, step 0 of an unsound log:")?;
    hex(rt, record::step_records(b"\0\0\0\0\0\x0a\0\0", 0))
}

fn records_read(rt: &impl Print) -> io::Result<()> {
    let records: [(&str, &[u8]); 7] = [
        ("nothing", b""),
        ("nine bytes", b"\0\0\0\0\0\0\0\0\0"),
        ("example L", b"\x02\x01\0\0\x03\x09\0\0"),
        (
            "a damaged tail, carrier 32, lever 10",
            b"\0\0\0\0\x20\x0a\x01\0",
        ),
        (
            "carrier 32, lever 10, step 180000",
            b"\x20\xbf\x02\0\x20\x0a\0\0",
        ),
        ("lever 10, step 180000", b"\x20\xbf\x02\0\x1f\x0a\0\0"),
        ("step 180000", b"\x20\xbf\x02\0\x1f\x09\0\0"),
    ];
    for (name, bytes) in records {
        print!(rt; "read, {name}:")?;
        match record::read_record(bytes) {
            Ok(
                Record {
                    step,
                    carrier,
                    lever,
                },
            ) => println!(rt; " {step} {carrier} {lever}")?,
            Err(why) => println!(rt; " refused {why}")?,
        }
    }
    Ok(())
}

fn records_written(rt: &impl Print) -> io::Result<()> {
    let records = [
        ("example L", 258, 3, 9),
        ("carrier 32, lever 10, step 180000", 180_000, 32, 10),
        ("lever 10, step 180000", 180_000, 31, 10),
        ("step 180000", 180_000, 31, 9),
        ("the last place, the brake", 179_999, 31, 9),
        ("lever 265", 0, 0, 265),
    ];
    for (name, step, carrier, lever) in records {
        print!(rt; "written, {name}:")?;
        match record::write_record(step, carrier, lever) {
            Ok(bytes) => hex(rt, &bytes)?,
            Err(why) => println!(rt; " refused {why}")?,
        }
    }
    Ok(())
}

fn log(rt: &impl Print, name: &str, bytes: &[u8]) -> io::Result<()> {
    let sound = if record::log_sound(bytes) {
        "sound"
    } else {
        "unsound"
    };
    println!(rt; "log, {name}: {sound}")
}

fn hex(rt: &impl Print, bytes: &[u8]) -> io::Result<()> {
    for byte in bytes {
        print!(rt; " {byte:02x}")?;
    }
    println!(rt;)
}
