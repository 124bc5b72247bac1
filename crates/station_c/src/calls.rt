// The exports of opening, reading, delivery and replay.

ghost use Rattle.basis.specs.Filled.{filled};
ghost use Rattle.session.specs.Lent.{lent};
ghost use Rattle.station.specs.Face.{yard_of};
ghost use Rattle.station.specs.Left.{left};
ghost use Rattle.station.specs.Says.{DeliverSays, OpenSays, ReadingSays, ReplaySays};

// A log replayed from the start of a world, to so many steps.
#[unsafe(no_mangle)]
pub extern "C" fn wuthracomb_replay(
    w: u32,
    h: u32,
    b: u32,
    steps: u32,
    cells: &[u8],
    boxes: &[i32],
    state: &mut [i32],
    log: &[u8],
) -> u32
    ensures replayed { ReplaySays (yard_of w h b) steps
        cells.now boxes.now state.old log.now
        (filled result state.new) }
{
    station::wuthracomb_replay(w, h, b, steps, cells, boxes, state, log)
}

// A session opened from a first reading.
#[unsafe(no_mangle)]
pub extern "C" fn wuthracomb_open(
    w: u32,
    h: u32,
    b: u32,
    reading: u64,
    cells: &[u8],
    boxes: &[i32],
    state: &mut [i32],
    rows: &mut [i32],
    log: &mut [u8],
    session: &mut [u64],
) -> u32
    ensures opened { OpenSays (yard_of w h b) reading
        (lent cells.now boxes.now state.old
        rows.old log.old)
        session.old
        (left result state.new rows.new log.new session.new) }
{
    station::wuthracomb_open(w, h, b, reading, cells, boxes, state, rows, log, session)
}

// A clock reading.
#[unsafe(no_mangle)]
pub extern "C" fn wuthracomb_reading(
    reading: u64,
    cells: &[u8],
    boxes: &[i32],
    state: &mut [i32],
    rows: &mut [i32],
    log: &[u8],
    session: &mut [u64],
) -> u32
    ensures read { ReadingSays reading
        (lent cells.now boxes.now state.old
        rows.old log.now)
        session.old
        (left result state.new rows.new log.now session.new) }
{
    station::wuthracomb_reading(reading, cells, boxes, state, rows, log, session)
}

// A delivery of any bytes: 0, 1, or a refusal.
#[unsafe(no_mangle)]
pub extern "C" fn wuthracomb_deliver(
    bytes: &[u8],
    cells: &[u8],
    boxes: &[i32],
    state: &mut [i32],
    rows: &mut [i32],
    log: &mut [u8],
    session: &mut [u64],
) -> u32
    ensures delivered { DeliverSays bytes.now
        (lent cells.now boxes.now state.old
        rows.old log.old)
        session.old
        (left result state.new rows.new log.new session.new) }
{
    station::wuthracomb_deliver(bytes, cells, boxes, state, rows, log, session)
}
