// One row of one edge in the accumulator. Columns are usize here: inside the box none is negative.
ghost use Rattle.std.specs.Prelude.{◌≡◌, ◌+◌, ◌-◌, ◌≤◌, ◌<◌, pos, length};
ghost use Rattle.mathf.specs.F32.{of_ℕᶠ};
ghost use Rattle.mathf.specs.Whole.{floor_of, ceil_of};
ghost use Rattle.accum.specs.Accum.{bump_at, bump_run, short_row, mid_row, inner_row, wide_row, row_accum};
ghost use Rattle.accum.specs.Rooms.{first_column, last_column};

// A number up to 2^24 as an f32.
pub(crate) fn f32_of(n: usize) -> f32
    requires { n ≤ 16777216 }
    ensures { result ≡ of_ℕᶠ n }
{
    n as f32
}

// a[i] += v
fn bump(a: &mut [f32], i: usize, v: f32)
    requires { i < length a.old }
    ensures { a.new ≡ bump_at a.old i v }
{
    a[i] += v;
}

// Adds v to each of the words from i up to e.
fn bump_run(a: &mut [f32], i: usize, e: usize, v: f32)
    requires { (i ≤ e) × (e ≤ length a.old) }
    ensures { a.new ≡ bump_run a.old i (e - i) v }
{
    for w in a[i..e].iter_mut() {
        *w += v;
    }
}

// A row in which the edge stays within one column.
#[tactic(auto, unfolding(crate::specs::Accum::short_row))]
fn row_short(a: &mut [f32], ls: usize, x0i: usize, d: f32, xmf: f32)
    requires { ls + (x0i + 1) < length a.old }
    ensures { a.new ≡ short_row a.old ls (pos x0i) d xmf }
{
    bump(a, ls + x0i, d - d * xmf);
    bump(a, ls + (x0i + 1), d * xmf);
}

// How an edge crosses the columns from x0i to x1i of a row, whose words start at ls. d is its signed height and s one over its
// width; x0fr and x1fr are how far it reaches into the first column and the last.
#[derive(Clone, Copy)]
struct Crossing {
    ls: usize,
    x0i: usize,
    x1i: usize,
    d: f32,
    s: f32,
    x0fr: f32,
    x1fr: f32,
}

impl Crossing {
    // The columns between the first and the last, where there is more than one.
    fn mid(self, a: &mut [f32], a0: f32, am: f32)
        requires { (self.x0i + 3 ≤ self.x1i) × (self.ls + self.x1i < length a.old) × (self.x1i ≤ 16386) }
        ensures { a.new ≡ mid_row a.old self.ls (pos self.x0i) (pos self.x1i) self.d self.s self.x0fr a0 am }
    {
        let a1 = self.s * (1.5 - self.x0fr);
        bump(a, self.ls + (self.x0i + 1), self.d * (a1 - a0));
        bump_run(
            a,
            self.ls + (self.x0i + 2),
            self.ls + (self.x1i - 1),
            self.d * self.s,
        );
        let a2 = a1 + f32_of(self.x1i - self.x0i - 3) * self.s;
        bump(a, self.ls + (self.x1i - 1), self.d * (1.0 - a2 - am));
    }

    // The columns between the first and the last.
    #[tactic(auto, unfolding(crate::specs::Accum::inner_row))]
    fn inner(self, a: &mut [f32], a0: f32, am: f32)
        requires { (self.x0i + 2 ≤ self.x1i) × (self.ls + self.x1i < length a.old) × (self.x1i ≤ 16386) }
        ensures { a.new ≡ inner_row a.old self.ls (pos self.x0i) (pos self.x1i) self.d self.s self.x0fr a0 am }
    {
        if self.x1i == self.x0i + 2 {
            bump(a, self.ls + (self.x0i + 1), self.d * (1.0 - a0 - am));
        } else {
            self.mid(a, a0, am);
        }
    }

    // All the columns.
    #[tactic(auto, unfolding(crate::specs::Accum::wide_row))]
    fn wide(self, a: &mut [f32])
        requires { (self.x0i + 2 ≤ self.x1i) × (self.ls + self.x1i < length a.old) × (self.x1i ≤ 16386) }
        ensures { a.new ≡ wide_row a.old self.ls (pos self.x0i) (pos self.x1i) self.d self.s self.x0fr self.x1fr }
    {
        let a0 = 0.5 * self.s * (1.0 - self.x0fr) * (1.0 - self.x0fr);
        let am = 0.5 * self.s * self.x1fr * self.x1fr;
        bump(a, self.ls + self.x0i, self.d * a0);
        self.inner(a, a0, am);
        bump(a, self.ls + self.x1i, self.d * am);
    }
}

// One row of one edge, whose words start at ls, from xa to xb. d is its signed height.
#[tactic(auto, unfolding(crate::specs::Accum::row_accum))]
pub(crate) fn row_accum(a: &mut [f32], ls: usize, d: f32, xa: f32, xb: f32)
    requires { (ls + first_column xa + 1 < length a.old) × (ls + last_column xb < length a.old)
        × (last_column xb ≤ 16386) }
    ensures { a.new ≡ row_accum a.old ls d xa xb (floor_of xa) (ceil_of xb) (pos (first_column xa))
        (pos (last_column xb)) }
{
    let x0f = mathf::floor(xa);
    let x1c = mathf::ceil(xb);
    let x0i = mathf::to_usize(x0f);
    let x1i = mathf::to_usize(x1c);
    if x1i <= x0i + 1 {
        row_short(a, ls, x0i, d, 0.5 * (xa + xb) - x0f);
    } else {
        let crossing = Crossing {
            ls,
            x0i,
            x1i,
            d,
            s: 1.0 / (xb - xa),
            x0fr: xa - x0f,
            x1fr: xb - x1c + 1.0,
        };
        crossing.wide(a);
    }
}
