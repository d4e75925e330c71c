// The window's tests: whether it is one, whether bytes lie in it, and the first that doesn't.
#![tactic(auto)]

ghost use Rattle.std.specs.Prelude.{◌≡◌, ◌+◌, ◌-◌, ◌%◌, ◌^◌, ◌≤◌, if◌then◌else◌, nat_le};
ghost use Rattle.window.specs.Window.{window_ok, in_window, offset_in};

// Whether the window is one: at most 65,536 bytes, and not past 2^64.
pub fn window_ok(base: u64, len: u64) -> bool
    ensures { result ≡ window_ok base len }
{
    if 65536 < len {
        return false;
    }
    if len == 0 {
        return true;
    }
    if 0xffff_ffff_ffff_ffff - base < len - 1 {
        return false;
    }
    true
}

// Whether n bytes from `start` on lie in the window.
pub fn inside(base: u64, room: u64, start: u64, n: u64) -> bool
    ensures { result ≡ in_window base room start n }
{
    if start < base {
        return false;
    }
    let offset = start - base;
    if room < offset {
        return false;
    }
    if room - offset < n {
        return false;
    }
    true
}

// How many offsets in a window of `room` bytes leave room for n bytes from there on.
pub fn limit_of(room: u64, n: u64) -> u64
    requires { room ≤ 65536 }
    ensures { result ≡ room + 1 - n }
{
    let past = room + 1;
    if past < n {
        return 0;
    }
    past - n
}

// Whether an address is at the limit or past it, counted from the window's start. With the limit of `limit_of` that says that the bytes
// don't lie in the window: one comparison, since an offset that wraps is large.
pub fn is_past(base: u64, limit: u64, start: u64) -> bool
    ensures { result ≡ nat_le limit (offset_in base start) }
{
    limit <= start.wrapping_sub(base)
}

// In a window that is one, the first byte from `start` on that isn't in it: that at `start`, or else the one behind the window, modulo
// 2^64.
pub fn first_outside(base: u64, room: u64, start: u64) -> u64
    ensures { result ≡ (if in_window base room start 1 then (base + room) % 2 ^ 64 else start) }
{
    if inside(base, room, start, 1) {
        return base.wrapping_add(room);
    }
    start
}
