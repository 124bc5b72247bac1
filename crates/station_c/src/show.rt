// The exports of the digest and the shown place.

ghost use Rattle.basis.specs.Filled.{filled};
ghost use Rattle.session.specs.Lent.{lent};
ghost use Rattle.station.specs.Says.{DigestSays, ShownSays};

// The digest of a session.
#[unsafe(no_mangle)]
pub extern "C" fn wuthracomb_digest(
    cells: &[u8],
    boxes: &[i32],
    state: &[i32],
    rows: &[i32],
    log: &[u8],
    session: &[u64],
    out: &mut [u32],
) -> u32
    ensures digested { DigestSays
        (lent cells.now boxes.now state.now
        rows.now log.now)
        session.now out.old
        (filled result out.new) }
{
    station::wuthracomb_digest(cells, boxes, state, rows, log, session, out)
}

// The shown place of a carrier: x and y.
#[unsafe(no_mangle)]
pub extern "C" fn wuthracomb_shown(
    carrier: u32,
    cells: &[u8],
    boxes: &[i32],
    state: &[i32],
    rows: &[i32],
    log: &[u8],
    session: &[u64],
    out: &mut [f64],
) -> u32
    ensures shown { ShownSays carrier
        (lent cells.now boxes.now state.now
        rows.now log.now)
        session.now out.old
        (filled result out.new) }
{
    station::wuthracomb_shown(carrier, cells, boxes, state, rows, log, session, out)
}
