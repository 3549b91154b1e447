// The ranges as they stand in the list, for callers.
ghost use Rattle.std.specs.Prelude.{◌≡◌, get_or};
ghost use Rattle.scan.specs.Listed.{listed_at, next_kept};

// A range has a start and a length whether it is kept or not, so the flag stands beside them.
#[derive(Clone, Copy)]
pub struct Listed {
    pub start: usize,
    pub len: usize,
    pub kept: bool,
}

// A range that is kept, whose bytes are `text::bytes::part(dump, start, len)`, and the number of the range after it.
#[derive(Clone, Copy)]
pub struct Kept {
    pub start: usize,
    pub len: usize,
    pub next: usize,
}

fn number(list: &[u32], k: usize) -> usize
    ensures { result ≡ get_or list.now k 0 }
{
    list.get(k).copied().unwrap_or(0) as usize
}

// The range `i` of a list, counted from 0; past the list's end an empty one that is skipped.
pub fn range_at(list: &[u32], i: usize) -> Listed
    ensures { result ≡ listed_at list.now i }
{
    if list.len() <= i {
        return Listed {
            start: 0,
            len: 0,
            kept: false,
        };
    }
    Listed {
        start: number(list, i * 3),
        len: number(list, i * 3 + 1),
        kept: number(list, i * 3 + 2) == 1,
    }
}

// The first range from `i` on that is kept, of a list of `count` ranges.
pub fn next_kept(list: &[u32], count: usize, i: usize) -> Option<Kept>
    ensures { result ≡ next_kept list.now count i }
{
    for at in i..count {
        let r = range_at(list, at);
        if r.kept {
            return Some(Kept {
                start: r.start,
                len: r.len,
                next: at + 1,
            });
        }
    }
    None
}
