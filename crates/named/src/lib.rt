// What every call asks of a root that goes with the area: −21 and −93; and the current record that update, delete and mode 1 ask
// for.
#![tactic(auto)]

ghost use Rattle.std.specs.Prelude.{◌≡◌, ◌&&◌, ◌≤◌, leb, IfOk};
ghost use Rattle.spec.specs.Layout.{view_shape};
ghost use Rattle.spec.specs.Cursor.{paths_in, current_record};
ghost use Rattle.spec.specs.Calls.{named_cursor};
ghost use Rattle.named.specs.Named.{view_out, root_out, number_out, set_out, cursor_out, set_named, cursor_named};

use area::live;
use layout::{DetailSet, MasterSet, Root};
use root::Kind;
use session::Session;
use spec::{Cursor, Refusal, Shape};

// The named set by its kind.
#[derive(Clone, Copy)]
pub enum Named<'a> {
    Master(MasterSet<'a>),
    Detail(DetailSet<'a>),
}

impl<'a> Named<'a> {
    #[tactic(auto, using(crate::proofs::Laws::few_sets))]
    fn number(&self) -> u16
        ensures is { result ≡ number_out self.now }
        ensures within { (1 ≤ result) × (result ≤ 16) }
    {
        match self {
            Named::Master(m) => m.number,
            Named::Detail(d) => d.number,
        }
    }

    #[tactic(auto, unfolding(spec::specs::Layout::view_shape, spec::specs::Layout::master_of, spec::specs::Layout::detail_of))]
    pub fn shape(&self) -> Shape
        ensures is { result ≡ view_shape (view_out self.now) }
        ensures high { result.cap ≤ 4095 }
    {
        match self {
            Named::Master(m) => m.master.shape,
            Named::Detail(d) => d.shape,
        }
    }

    #[tactic(auto, unfolding(spec::specs::Cursor::paths_in, spec::specs::Layout::detail_of))]
    fn path_count(&self) -> u16
        ensures is { result ≡ paths_in (view_out self.now) }
        ensures few { result ≤ 4 }
    {
        match self {
            Named::Master(_) => 0,
            Named::Detail(d) => d.path_count(),
        }
    }

    // −93: its cursor, if it fits. (What fits is told by clauses: for a type of its own in a Result beside a set `?` gets no proof.)
    #[tactic(auto, using(std::proofs::lemmas::Bool::Decides::nat_tests), unfolding(spec::specs::Calls::named_cursor, spec::specs::Cursor::cursor_good))]
    pub fn cursor(&self, session: &Session) -> Result<Cursor, Refusal>
        ensures is { result ≡ named_cursor (view_out self.now) session.now.cursors (number_out self.now) }
        ensures within { IfOk result (λ c. (c.path ≤ 4) × (c.current ≤ 4095)) }
    {
        let c = session.cursor_of(self.number());
        if !cursor_fits(c, self.path_count(), self.shape().cap) {
            return Err(Refusal::BadCursor);
        }
        Ok(c)
    }
}

// −21: "no such set" (that its number is one of sixteen is what the calls' steps promise)
#[tactic(auto, using(std::proofs::lemmas::Bool::Decides::nat_tests, crate::proofs::Laws::few_sets), unfolding(crate::specs::Named::set_named, spec::specs::Layout::view_of))]
pub fn name_set<'a>(root: &'a Root<'a>, set: u16) -> Result<Named<'a>, Refusal>
    ensures is { set_out result ≡ set_named root.now.words.now set }
    ensures root { IfOk result (λ named. root_out named ≡ root.now) }
    ensures number { IfOk result (λ named. number_out named ≡ set) }
    ensures within { IfOk result (λ _. (1 ≤ set) × (set ≤ 16)) }
{
    let Some(named) = root.set(set) else {
        return Err(Refusal::NoSet);
    };
    match named.kind() {
        Kind::Detail => Ok(Named::Detail(named.detail())),
        _ => Ok(Named::Master(named.master())),
    }
}

// "this set's cursor: path above its paths, or current record above C"
pub fn cursor_fits(c: Cursor, paths: u16, cap: u16) -> bool
    ensures { result ≡ (leb c.path paths && leb c.current cap) }
{
    c.path <= (paths as u32) && c.current <= (cap as u32)
}

// The named set with its cursor: −21, −93.
#[tactic(auto, unfolding(crate::specs::Named::cursor_named), using(spec::specs::Follow::goes, spec::specs::Follow::stops))]
pub fn name_cursor<'a>(
    root: &'a Root<'a>,
    session: &Session,
    set: u16,
) -> Result<(Named<'a>, Cursor), Refusal>
    ensures is { cursor_out result ≡ cursor_named root.now.words.now session.now.cursors set }
    ensures root { IfOk result (λ named. root_out named.0 ≡ root.now) }
    ensures number { IfOk result (λ named. number_out named.0 ≡ set) }
    ensures within { IfOk result (λ _. (1 ≤ set) × (set ≤ 16)) }
    ensures path { IfOk result (λ named. (named.1.path ≤ 4) × (named.1.current ≤ 4095)) }
{
    let named = name_set(root, set)?;
    let c = named.cursor(session)?;
    Ok((named, c))
}

// "the current record; 17 if none or unused"
#[tactic(auto, unfolding(spec::specs::Cursor::current_record), using(spec::specs::Follow::goes, spec::specs::Follow::stops))]
pub fn current_record(area: &[u16], s: Shape, c: Cursor) -> Result<u32, Refusal>
    ensures is { result ≡ current_record s area.now c }
    ensures there { IfOk result (λ r. (1 ≤ r) × (r ≡ c.current)) }
{
    if c.current == 0 || !live(area, s, c.current) {
        return Err(Refusal::NoRecord);
    }
    Ok(c.current)
}
