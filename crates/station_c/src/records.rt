// The exports of records and logs.

ghost use Rattle.basis.specs.Filled.{filled};
ghost use Rattle.station.specs.Says.{
  LogSoundSays,
  ReadRecordSays,
  StepRecordsSays,
  WriteRecordSays,
};

// Is the log sound: 1 or 0.
#[unsafe(no_mangle)]
pub extern "C" fn wuthracomb_log_sound(log: &[u8]) -> u32
    ensures sound { LogSoundSays log.now result }
{
    station::wuthracomb_log_sound(log)
}

// The records of one step: the start and the end of their part of the log.
#[unsafe(no_mangle)]
pub extern "C" fn wuthracomb_step_records(log: &[u8], step: u32, out: &mut [u64]) -> u32
    ensures part { StepRecordsSays log.now step out.old
        (filled result out.new) }
{
    station::wuthracomb_step_records(log, step, out)
}

// Reading one record: its step, carrier and lever.
#[unsafe(no_mangle)]
pub extern "C" fn wuthracomb_read_record(bytes: &[u8], out: &mut [u32]) -> u32
    ensures read { ReadRecordSays bytes.now out.old
        (filled result out.new) }
{
    station::wuthracomb_read_record(bytes, out)
}

// Writing a record from three numbers.
#[unsafe(no_mangle)]
pub extern "C" fn wuthracomb_write_record(
    step: u32,
    carrier: u32,
    lever: u32,
    out: &mut [u8],
) -> u32
    ensures written { WriteRecordSays step carrier lever out.old
        (filled result out.new) }
{
    station::wuthracomb_write_record(step, carrier, lever, out)
}
