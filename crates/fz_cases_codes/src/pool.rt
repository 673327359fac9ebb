//! What no clause says: that workers run side by side, what the gate is called with, and worked values.
ghost use Rattle.std.specs.Prelude.{◌≡◌, ℕ, ◌+◌, ◌*◌, ◌^◌, ◌<◌, ◌≤◌, length, pos, replicate, slice_index_or, IfOk};
ghost use Rattle.fz_pool.specs.declared.slot.Slot.{Slot};
ghost use Rattle.fz_pool.specs.Slots.{IsForEncoding, IsForDecoding};
ghost use Rattle.fz_pool.specs.Window.{IsFilled, IsPut, Pool, slot_size, slot_sizes};
ghost use Rattle.fz_pool.specs.Calls.{AreForEncoding, AreForDecoding};

use crate::asserts::alike;
use fz_base::{FreeGate, Gate, Meter, NoMemory, Short};
use fz_pool::{
    Crew, Job, Slot, Window, decode_beside, decode_window, encode_beside, encode_window, put_law,
    sizes_law,
};
use fz_tile::{Codec, Place2, TileFault};
use std::alloc::{AllocError, Global};
use std::process::Abort;
use std::sync::atomic::{AtomicU64, Ordering};
use std::test::Fail;

// A job on n pixels of 16 bits, with a stored record of so many bytes.
fn job_of(tile: u32, n: u32, len: u32) -> Job
    ensures { result ≡ record { tile = tile; pixels = n; codec = Codec.Plain; bitpix = pos 16; place = Place2.Stored; len = len; total = len } }
{
    Job {
        tile,
        pixels: n,
        codec: Codec::Plain,
        bitpix: 16,
        place: Place2::Stored,
        len,
        total: u64::from(len),
    }
}

// The slot gets a tile of one pixel.
fn set_tile(slot: &mut Slot, tile: u32, value: u8)
    requires { slot_size slot.old ≡ (2, 72) }
    ensures ready { IsForEncoding slot.new }
    ensures size { slot_size slot.new ≡ (2, 72) }
{
    slot.job = job_of(tile, 1, 0);
    set_first(slot.numbers.as_mut_slice(), value);
}

fn set_first(numbers: &mut [i32], value: u8)
    requires { 1 ≤ length numbers.old }
    ensures { slice_index_or numbers.new 0 (pos 0) ≡ pos value }
{
    numbers[0] = i32::from(value);
}

// The slot gets the stored record of n pixels, of which so many bytes are said to count.
fn set_record(slot: &mut Slot, tile: u32, value: u8, n: u32, len: u32)
    requires some { (1 ≤ n) × (n ≤ 2 ^ 26) }
    requires size { slot_size slot.old ≡ (2 * n, 8 * n + 64) }
    requires len { len ≤ 8 * n + 64 }
    ensures ready { IsForDecoding slot.new }
    ensures size { slot_size slot.new ≡ (2 * n, 8 * n + 64) }
{
    slot.job = job_of(tile, n, len);
    slot.code.as_mut_slice()[1] = value;
    slot.numbers.as_mut_slice()[0] = 0;
}

// A filled window for tiles of n pixels.
fn filled_for(alloc: Global, workers: u32, n: u32) -> Result<Window, AllocError>
    requires { (1 ≤ workers) × (workers ≤ 64) }
    ensures workers { IfOk result (λ w. w.workers ≡ workers) }
    ensures sizes { IfOk result (λ w. slot_sizes w.slots ≡ replicate (2 * workers) (2 * n, 8 * n + 64)) }
{
    sizes_law();
    let mut meter = Meter::new(alloc, 1 << 21);
    let Ok(mut window) = Window::new(alloc, workers) else {
        return Err(AllocError);
    };
    match window.fill(&mut meter, n) {
        Ok(()) => Ok(window),
        Err(_) => Err(AllocError),
    }
}

// A filled window for tiles of one pixel.
fn filled(alloc: Global, workers: u32) -> Result<Window, AllocError>
    requires { (1 ≤ workers) × (workers ≤ 64) }
    ensures workers { IfOk result (λ w. w.workers ≡ workers) }
    ensures sizes { IfOk result (λ w. slot_sizes w.slots ≡ replicate (2 * workers) (2, 72)) }
{
    filled_for(alloc, workers, 1)
}

// The slot i gets the tile 10 + i, with the value i.
fn put_tile(window: &mut Window, i: u32)
    requires near { (i < 128) × (i < 2 * window.old.workers) }
    requires sizes { slot_sizes window.old.slots ≡ replicate (2 * window.old.workers) (2, 72) }
    ensures { (x : Slot) × IsPut window.old i x window.new × IsForEncoding x }
{
    sizes_law();
    put_law();
    set_tile(window.slot_mut(i), 10 + i, i as u8);
}

// The slot i gets the record of that tile, of which so many bytes are said to count.
fn put_record(window: &mut Window, i: u32, n: u32, len: u32)
    requires some { (1 ≤ n) × (n ≤ 2 ^ 26) }
    requires near { (i < 128) × (i < 2 * window.old.workers) × (len ≤ 8 * n + 64) }
    requires sizes { slot_sizes window.old.slots ≡ replicate (2 * window.old.workers) (2 * n, 8 * n + 64) }
    ensures { (x : Slot) × IsPut window.old i x window.new × IsForDecoding x }
{
    sizes_law();
    put_law();
    set_record(window.slot_mut(i), 10 + i, i as u8, n, len);
}

// The first slots get the tiles 10, 11 and so on, with the values 0, 1 and so on.
fn put_tiles(window: &mut Window, count: u32)
    requires near { (count ≤ 128) × (count ≤ 2 * window.old.workers) }
    requires sizes { slot_sizes window.old.slots ≡ replicate (2 * window.old.workers) (2, 72) }
    ensures workers { window.new.workers ≡ window.old.workers }
    ensures sizes { slot_sizes window.new.slots ≡ slot_sizes window.old.slots }
    ensures ready { AreForEncoding count window.new.slots }
{
    put_law();
    for i in 0..count {
        put_tile(window, i);
    }
}

// The first slots get the records of tiles of n pixels, and a byte too many is said to count at two of them.
fn put_records_of(window: &mut Window, count: u32, n: u32, faulty: [u32; 2])
    requires some { (1 ≤ n) × (n ≤ 2 ^ 26) }
    requires near { (count ≤ 128) × (count ≤ 2 * window.old.workers) }
    requires sizes { slot_sizes window.old.slots ≡ replicate (2 * window.old.workers) (2 * n, 8 * n + 64) }
    ensures workers { window.new.workers ≡ window.old.workers }
    ensures sizes { slot_sizes window.new.slots ≡ slot_sizes window.old.slots }
    ensures ready { AreForDecoding count window.new.slots }
{
    put_law();
    for i in 0..count {
        let more = u32::from(i == faulty[0] || i == faulty[1]);
        put_record(window, i, n, 2 * n + more);
    }
}

// The same for tiles of one pixel.
fn put_records(window: &mut Window, count: u32, faulty: [u32; 2])
    requires near { (count ≤ 128) × (count ≤ 2 * window.old.workers) }
    requires sizes { slot_sizes window.old.slots ≡ replicate (2 * window.old.workers) (2, 72) }
    ensures workers { window.new.workers ≡ window.old.workers }
    ensures sizes { slot_sizes window.new.slots ≡ slot_sizes window.old.slots }
    ensures ready { AreForDecoding count window.new.slots }
{
    put_records_of(window, count, 1, faulty);
}

// Each of the first slots is as `put_tiles` leaves it in a window that was just filled.
fn expect_tiles(rt: &impl Abort, window: &Window, count: u32)
    requires near { (count ≤ 128) × (count ≤ 2 * window.now.workers) }
    requires sizes { slot_sizes window.now.slots ≡ replicate (2 * window.now.workers) (2, 72) }
{
    for i in 0..count {
        let slot = window.slot(i);
        let (numbers, code) = (slot.numbers.as_slice(), slot.code.as_slice());
        alike(rt, (slot.job, slot.fault), (job_of(10 + i, 1, 0), None));
        alike(
            rt,
            (numbers, code),
            ([i as i32, 0].as_slice(), [0; 72].as_slice()),
        );
    }
}

// Each of the first slots is as `put_records` leaves it, with no faulty record.
fn expect_records(rt: &impl Abort, window: &Window, count: u32)
    requires near { (count ≤ 128) × (count ≤ 2 * window.now.workers) }
    requires sizes { slot_sizes window.now.slots ≡ replicate (2 * window.now.workers) (2, 72) }
{
    for i in 0..count {
        let slot = window.slot(i);
        alike(rt, (slot.job, slot.fault), (job_of(10 + i, 1, 2), None));
        assert!(rt; slot.code.len() == 72);
        alike(
            rt,
            (slot.numbers.as_slice(), &slot.code.as_slice()[..2]),
            ([0, 0].as_slice(), [0, i as u8].as_slice()),
        );
    }
}

// Each of the first slots has the bytes of its own tile.
fn expect_bytes(rt: &impl Abort, window: &Window, count: u32)
    requires near { (count ≤ 128) × (count ≤ 2 * window.now.workers) }
    requires sizes { slot_sizes window.now.slots ≡ replicate (2 * window.now.workers) (2, 72) }
{
    for i in 0..count {
        let slot = window.slot(i);
        let job = (slot.job.tile, slot.job.place, slot.job.len);
        assert!(rt; slot.code.len() == 72);
        alike(
            rt,
            (job, &slot.code.as_slice()[..2]),
            ((10 + i, Place2::Stored, 2), [0, i as u8].as_slice()),
        );
    }
}

// Each of the first slots has the number of its own record.
fn expect_numbers(rt: &impl Abort, window: &Window, count: u32)
    requires near { (count ≤ 128) × (count ≤ 2 * window.now.workers) }
    requires sizes { slot_sizes window.now.slots ≡ replicate (2 * window.now.workers) (2, 72) }
{
    for i in 0..count {
        let slot = window.slot(i);
        alike(
            rt,
            (slot.job.tile, slot.numbers.as_slice()),
            (10 + i, [i as i32, 0].as_slice()),
        );
    }
}

/// Holds the call for tile 10 until three others have come, and counts the calls of each worker.
#[derive(Drop)]
struct Holding {
    others: AtomicU64,
    tiles: AtomicU64,
    workers: AtomicU64,
    came: AtomicU64,
}

impl Holding {
    fn new() -> Holding {
        Holding {
            others: AtomicU64::new(0),
            tiles: AtomicU64::new(0),
            workers: AtomicU64::new(0),
            came: AtomicU64::new(0),
        }
    }
}

impl Gate for Holding {
    fn pass(&self, worker: u32, tile: u32) {
        self.tiles.fetch_add(u64::from(tile), Ordering::SeqCst);
        self.workers.fetch_add(one_call(worker), Ordering::SeqCst);
        if tile != 10 {
            self.others.fetch_add(1, Ordering::SeqCst);
            return;
        }
        for _ in 0..1_000_000_000u64 {
            if self.others.load(Ordering::SeqCst) == 3 {
                self.came.store(1, Ordering::SeqCst);
                return;
            }
        }
    }
}

// A call of worker 0 counts 1, one of worker 1 counts 256, one of worker 2 counts 65,536, and there is
// no other worker.
fn one_call(worker: u32) -> u64 {
    match worker {
        0 => 1,
        1 => 256,
        2 => 65_536,
        _ => 16_777_216,
    }
}

/// Holds each call until three have come, and counts the calls of each worker.
#[derive(Drop)]
struct Meeting {
    came: AtomicU64,
    met: AtomicU64,
    workers: AtomicU64,
}

impl Meeting {
    fn new() -> Meeting {
        Meeting {
            came: AtomicU64::new(0),
            met: AtomicU64::new(0),
            workers: AtomicU64::new(0),
        }
    }
}

impl Gate for Meeting {
    fn pass(&self, worker: u32, _tile: u32) {
        self.workers.fetch_add(one_call(worker), Ordering::SeqCst);
        self.came.fetch_add(1, Ordering::SeqCst);
        for _ in 0..1_000_000_000u64 {
            if self.came.load(Ordering::SeqCst) == 3 {
                self.met.fetch_add(1, Ordering::SeqCst);
                return;
            }
        }
    }
}

/// Holds each call until a job has begun.
#[derive(Drop)]
struct Beside {
    begun: AtomicU64,
    came: AtomicU64,
    met: AtomicU64,
}

impl Beside {
    fn new() -> Beside {
        Beside {
            begun: AtomicU64::new(0),
            came: AtomicU64::new(0),
            met: AtomicU64::new(0),
        }
    }

    // The job: it is done once a call came, and answers whether one did.
    fn wait(&self) -> bool {
        self.begun.store(1, Ordering::SeqCst);
        for _ in 0..1_000_000_000u64 {
            if self.came.load(Ordering::SeqCst) > 0 {
                return true;
            }
        }
        false
    }
}

impl Gate for Beside {
    fn pass(&self, _worker: u32, _tile: u32) {
        self.came.fetch_add(1, Ordering::SeqCst);
        for _ in 0..1_000_000_000u64 {
            if self.begun.load(Ordering::SeqCst) == 1 {
                self.met.fetch_add(1, Ordering::SeqCst);
                return;
            }
        }
    }
}

// Three calls were held at once, one of each of the workers 0, 1 and 2.
fn expect_met(rt: &impl Abort, gate: &Meeting) {
    alike(rt, gate.met.load(Ordering::SeqCst), 3);
    alike(rt, gate.workers.load(Ordering::SeqCst), 0x10101);
}

// Slot by slot the tiles are 10 + from and so on, as `put_tiles` leaves them.
fn expect_marks(rt: &impl Abort, window: &Window, from: u32, count: u32)
    requires filled { IsFilled window.now }
    requires near { (from ≤ 128) × (count ≤ 128) × (count ≤ 2 * window.now.workers) }
{
    for i in 0..count {
        let slot = window.slot(i);
        alike(
            rt,
            (slot.job, slot.numbers.as_slice(), slot.code.len()),
            (
                job_of(10 + from + i, 1, 0),
                [(from + i) as i32, 0].as_slice(),
                72,
            ),
        );
    }
}

// The window for so many workers has halves of so many slots, in order, and is as before once they are joined again.
fn expect_halves(
    rt: &impl Abort,
    alloc: Global,
    workers: u32,
    slots: (u32, u32),
) -> Result<(), AllocError>
    requires { (2 ≤ workers) × (workers ≤ 64) }
{
    let mut window = filled(alloc, workers)?;
    put_tiles(&mut window, 2 * workers);
    let Ok((first, second)) = window.halve() else {
        return Err(AllocError);
    };
    let (half, rest) = (2 * first.workers(), 2 * second.workers());
    alike(rt, (half, rest), slots);
    expect_marks(rt, &first, 0, half);
    expect_marks(rt, &second, half, rest);
    window.rejoin(first, second);
    alike(rt, window.workers(), workers);
    expect_marks(rt, &window, 0, 2 * workers);
    Ok(())
}

// The three calls came while the one for tile 10 was held; the tiles 10 to 13 were reported; and one worker
// called once, the other three times.
fn expect_came(rt: &impl Abort, gate: &Holding) {
    let came = gate.came.load(Ordering::SeqCst);
    let tiles = gate.tiles.load(Ordering::SeqCst);
    let calls = gate.workers.load(Ordering::SeqCst);
    let is_shared = calls == 0x301 || calls == 0x103;
    alike(rt, (came, tiles, is_shared), (1, 46, true));
}

// It fails a body that codes all slots on one thread (`one_thread`): with `work_at_once` on one thread in
// place of `work_on_demand` in `run` each proof still passes, and this test does not.
#[test]
fn gate_holds_the_first_tile(rt: HostRuntime) -> Result<(), Fail> {
    let mut window = filled(rt.alloc(), 2)?;
    put_tiles(&mut window, 4);
    let gate = Holding::new();
    alike(&rt, encode_window(&rt, &mut window, 4, &gate), Ok(()));
    expect_came(&rt, &gate);
    expect_bytes(&rt, &window, 4);
    put_records(&mut window, 4, [9, 9]);
    let gate = Holding::new();
    alike(&rt, decode_window(&rt, &mut window, 4, &gate), Ok(None));
    expect_came(&rt, &gate);
    expect_numbers(&rt, &window, 4);
    Ok(())
}

// The same for tiles so large that all threads start at once.
#[test]
fn gate_holds_the_first_large_tile(rt: HostRuntime) -> Result<(), Fail> {
    let mut window = filled_for(rt.alloc(), 2, 16_384)?;
    put_records_of(&mut window, 4, 16_384, [9, 9]);
    let gate = Holding::new();
    alike(&rt, decode_window(&rt, &mut window, 4, &gate), Ok(None));
    expect_came(&rt, &gate);
    Ok(())
}

// It fails a body that does the job before the tiles, and one that does it after them.
#[test]
fn job_is_done_beside_the_tiles(rt: HostRuntime) -> Result<(), Fail> {
    let mut window = filled(rt.alloc(), 2)?;
    put_tiles(&mut window, 4);
    let gate = Beside::new();
    let crew = Crew {
        rt: &rt,
        gate: &gate,
        workers: 2,
    };
    let (answer, done) = encode_beside(&crew, &mut window, 4, &mut || gate.wait());
    alike(&rt, answer, Ok(()));
    assert!(rt; done);
    alike(&rt, gate.met.load(Ordering::SeqCst), 4);
    expect_bytes(&rt, &window, 4);
    put_records(&mut window, 4, [9, 9]);
    let gate = Beside::new();
    let crew = Crew {
        rt: &rt,
        gate: &gate,
        workers: 2,
    };
    let (answer, done) = decode_beside(&crew, &mut window, 4, &mut || gate.wait());
    alike(&rt, answer, Ok(None));
    assert!(rt; done);
    alike(&rt, gate.met.load(Ordering::SeqCst), 4);
    expect_numbers(&rt, &window, 4);
    Ok(())
}

// It fails a body whose threads beside a job start no more.
#[test]
fn three_calls_are_held_at_once(rt: HostRuntime) -> Result<(), Fail> {
    let mut window = filled(rt.alloc(), 3)?;
    put_tiles(&mut window, 3);
    let gate = Meeting::new();
    alike(&rt, encode_window(&rt, &mut window, 3, &gate), Ok(()));
    expect_met(&rt, &gate);
    expect_bytes(&rt, &window, 3);
    put_records(&mut window, 3, [9, 9]);
    let gate = Meeting::new();
    alike(&rt, decode_window(&rt, &mut window, 3, &gate), Ok(None));
    expect_met(&rt, &gate);
    expect_numbers(&rt, &window, 3);
    put_tiles(&mut window, 3);
    let gate = Meeting::new();
    let crew = Crew {
        rt: &rt,
        gate: &gate,
        workers: 3,
    };
    let (answer, ()) = encode_beside(&crew, &mut window, 3, &mut || {});
    alike(&rt, answer, Ok(()));
    expect_met(&rt, &gate);
    expect_bytes(&rt, &window, 3);
    Ok(())
}

// With no tile and with one: the job answers how often it was done before.
#[test]
fn job_is_done_once(rt: HostRuntime) -> Result<(), Fail> {
    let mut window = filled(rt.alloc(), 2)?;
    put_tiles(&mut window, 4);
    let done = AtomicU64::new(0);
    let crew = Crew {
        rt: &rt,
        gate: &FreeGate,
        workers: 2,
    };
    let mut job = || done.fetch_add(1, Ordering::SeqCst);
    let answer = encode_beside(&crew, &mut window, 0, &mut job);
    alike(&rt, answer, (Ok(()), 0));
    expect_tiles(&rt, &window, 4);
    let answer = encode_beside(&crew, &mut window, 1, &mut job);
    alike(&rt, answer, (Ok(()), 1));
    expect_bytes(&rt, &window, 1);
    put_records(&mut window, 4, [9, 9]);
    let answer = decode_beside(&crew, &mut window, 0, &mut job);
    alike(&rt, answer, (Ok(None), 2));
    expect_records(&rt, &window, 4);
    let answer = decode_beside(&crew, &mut window, 1, &mut job);
    alike(&rt, answer, (Ok(None), 3));
    expect_numbers(&rt, &window, 1);
    alike(&rt, done.load(Ordering::SeqCst), 4);
    Ok(())
}

#[test]
fn many_workers_and_none_to_do(rt: HostRuntime) -> Result<(), Fail> {
    let mut window = filled(rt.alloc(), 64)?;
    alike(&rt, window.workers(), 64);
    put_tiles(&mut window, 128);
    alike(&rt, encode_window(&rt, &mut window, 0, &FreeGate), Ok(()));
    expect_tiles(&rt, &window, 128);
    alike(&rt, encode_window(&rt, &mut window, 128, &FreeGate), Ok(()));
    expect_bytes(&rt, &window, 128);
    put_records(&mut window, 128, [128, 128]);
    alike(&rt, decode_window(&rt, &mut window, 0, &FreeGate), Ok(None));
    expect_records(&rt, &window, 128);
    alike(
        &rt,
        decode_window(&rt, &mut window, 128, &FreeGate),
        Ok(None),
    );
    expect_numbers(&rt, &window, 128);
    Ok(())
}

// For `tools/fail_allocations`: with an allocation of the call failing, all slots are as before.
#[test]
fn encoding_without_memory_leaves_the_slots(rt: HostRuntime) -> Result<(), Fail> {
    let mut window = filled(rt.alloc(), 2)?;
    put_tiles(&mut window, 4);
    match encode_window(&rt, &mut window, 4, &FreeGate) {
        Ok(()) => expect_bytes(&rt, &window, 4),
        Err(NoMemory) => expect_tiles(&rt, &window, 4),
    }
    Ok(())
}

// The same for decoding.
#[test]
fn decoding_without_memory_leaves_the_slots(rt: HostRuntime) -> Result<(), Fail> {
    let mut window = filled(rt.alloc(), 2)?;
    put_records(&mut window, 4, [4, 4]);
    match decode_window(&rt, &mut window, 4, &FreeGate) {
        Ok(fault) => {
            alike(&rt, fault, None);
            expect_numbers(&rt, &window, 4);
        }
        Err(NoMemory) => expect_records(&rt, &window, 4),
    }
    Ok(())
}

#[test]
fn lowest_faulty_slot_is_answered(rt: HostRuntime) -> Result<(), Fail> {
    let mut window = filled(rt.alloc(), 3)?;
    put_records(&mut window, 6, [2, 4]);
    let answer = decode_window(&rt, &mut window, 6, &FreeGate);
    alike(&rt, answer, Ok(Some((2, TileFault::TileSize))));
    expect_numbers(&rt, &window, 2);
    put_records(&mut window, 6, [3, 5]);
    let crew = Crew {
        rt: &rt,
        gate: &FreeGate,
        workers: 3,
    };
    let (answer, ()) = decode_beside(&crew, &mut window, 6, &mut || {});
    alike(&rt, answer, Ok(Some((3, TileFault::TileSize))));
    expect_numbers(&rt, &window, 3);
    Ok(())
}

#[test]
fn halves_have_the_slots_in_order(rt: HostRuntime) -> Result<(), Fail> {
    expect_halves(&rt, rt.alloc(), 2, (2, 2))?;
    expect_halves(&rt, rt.alloc(), 3, (2, 4))?;
    expect_halves(&rt, rt.alloc(), 64, (64, 64))?;
    Ok(())
}

#[test]
fn window_takes_and_hands_back(rt: HostRuntime) -> Result<(), Fail> {
    // Two workers have four slots, of 8 and 72 bytes each at one pixel.
    let Ok(mut window) = Window::new(rt.alloc(), 2) else {
        return Err(AllocError.into());
    };
    let mut meter = Meter::new(rt.alloc(), 319);
    let (live, asked, limit) = (248, 72, 319);
    let refused = Err(Short::OverLimit { live, asked, limit });
    let filled = window.fill(&mut meter, 1);
    alike(&rt, (filled, meter.live(), meter.peak()), (refused, 0, 248));
    let mut meter = Meter::new(rt.alloc(), 320);
    let filled = window.fill(&mut meter, 1);
    alike(&rt, (filled, meter.live()), (Ok(()), 320));
    window.empty(&mut meter);
    alike(&rt, meter.live(), 0);
    Ok(())
}
