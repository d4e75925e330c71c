// Patches that are made here.
ghost use Rattle.std.specs.Prelude.{◌≡◌, ◌+◌, ◌*◌, ◌≤◌, length};

// The mark, start and length of a run.
fn head(start: u64, len: u16) -> [u8; 12] {
    let mut head = [0u8; 12];
    head[..2].copy_from_slice(b"PR");
    head[2..10].copy_from_slice(&start.to_le_bytes());
    head[10..].copy_from_slice(&len.to_le_bytes());
    head
}

fn trailer(count: u16) -> [u8; 4] {
    let mut trailer = [0u8; 4];
    trailer[..2].copy_from_slice(b"PE");
    trailer[2..].copy_from_slice(&count.to_le_bytes());
    trailer
}

// n runs of len bytes each from 2000h on with gaps of one, and a trailer.
pub(crate) fn runs(s: &mut [u8], n: u16, len: u16)
    requires { length s.old ≡ n * (12 + len) + 4 }
{
    let size = 12 + usize::from(len);
    let (body, end) = s.split_at_mut(usize::from(n) * size);
    for (k, run) in (0..n).zip(body.chunks_exact_mut(size)) {
        let start = 0x2000 + u64::from(k) * (u64::from(len) + 1);
        let (mark, payload) = run.split_at_mut(12);
        mark.copy_from_slice(&head(start, len));
        payload.fill((k % 256) as u8);
    }
    end.copy_from_slice(&trailer(n));
}

// The sum of the bytes.
pub(crate) fn sum(m: &[u8]) -> u64
    requires { length m.now ≤ 65536 }
{
    m.iter().map(|&b| u64::from(b)).sum()
}
