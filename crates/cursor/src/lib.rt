// Where a session stands in its roll: the rows shown and the number still running (SHEETS 7). Of the roll its length is enough.
#![tactic(auto)]

ghost use Rattle.std.specs.Prelude.{◌≡◌, ◌-◌, min};
ghost use Rattle.cursor.specs.Cursor.{Passes};

// The next rows of a roll, `count` of them from row `from` on, and where a session stands behind them.
#[derive(Clone, Copy)]
pub struct NextRows {
    pub from: usize,
    pub count: usize,
    pub shown: usize,
    pub running: usize,
}

// The number still running: the rows of a roll that are not yet shown, none where more are shown than it has (SHEETS 7.4, 7.5).
pub fn left(rows: usize, shown: usize) -> usize
    ensures { result ≡ rows - shown }
{
    rows.saturating_sub(shown)
}

// Past n rows, or past those left if fewer (SHEETS 7.2). `shown + n` may exceed the machine's word: it is never computed.
pub fn step(rows: usize, shown: usize, n: usize) -> NextRows
    ensures { Passes rows shown n result }
{
    let left = left(rows, shown);
    let from = rows - left;
    let count = n.min(left);
    NextRows {
        from,
        count,
        shown: from + count,
        running: left - count,
    }
}
