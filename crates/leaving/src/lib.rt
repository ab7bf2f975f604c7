// "Detail steps", delete, on one chain: what is read of the line that goes, its unlinking, and the dropping of a master entry
// that has no lines left. What is written is in the journal, so a refusal on a later path leads back.
#![tactic(auto)]

ghost use Rattle.std.specs.Prelude.{◌≡◌, IfOk, ◌+◌, ◌-◌, ◌*◌, ◌≤◌, ◌<◌, ◌^◌, length};
ghost use Rattle.spec.specs.Detail.{unlink_neighbours, old_ends, link_out, drop_empty, hung};
ghost use Rattle.journal.specs.Journal.{Back};
ghost use Rattle.master_put.specs.Answers.{area_out};

use area::{follow, mend_back, mend_fore, read_head, read_links, set_head_count};
use find::no_lines;
use journal::Journal;
use master_delete::remove_entry;
use placing::set_end;
use sound::{PlacedPath, SoundMaster};
use spec::{FIRST_AT, Head, Hung, LAST_AT, Links, Path, Refusal, Shape};

// Behind and ahead of the line that goes are joined.
#[tactic(auto, unfolding(spec::specs::Detail::unlink_neighbours), using(journal::specs::BackLaws::back_two))]
fn neighbours(jr: &mut Journal, d: Shape, p: PlacedPath, l: Links)
    ensures is { jr.new.area.now ≡ unlink_neighbours d p jr.old.area.now l }
    ensures back { Back jr.old 4 jr.new }
{
    mend_fore(jr, d, l.back, p.plain.links, l.fore);
    mend_back(jr, d, l.fore, p.plain.links, l.back);
}

// The head's last and first, where the line that goes was at that end.
#[tactic(auto, unfolding(spec::specs::Detail::old_ends, spec::specs::Area::set_last, spec::specs::Area::set_first, placing::specs::Answers::end_set), using(journal::specs::BackLaws::back_two))]
fn old_ends(jr: &mut Journal, p: PlacedPath, k: u32, l: Links)
    ensures is { jr.new.area.now ≡ old_ends p jr.old.area.now k l }
    ensures back { Back jr.old 4 jr.new }
{
    set_end(
        jr,
        p.plain.to.shape,
        k,
        p.plain.head + LAST_AT,
        l.fore,
        l.back,
    );
    set_end(
        jr,
        p.plain.to.shape,
        k,
        p.plain.head + FIRST_AT,
        l.back,
        l.fore,
    );
}

// Behind, ahead, head.
#[tactic(auto, unfolding(spec::specs::Detail::link_out), using(journal::specs::BackLaws::back_three))]
pub fn link_out(jr: &mut Journal, d: Shape, p: PlacedPath, k: u32, h: Head, l: Links)
    ensures is { jr.new.area.now ≡ link_out d p jr.old.area.now k h l }
    ensures back { Back jr.old 9 jr.new }
{
    neighbours(jr, d, p, l);
    set_head_count(
        jr,
        p.plain.to.shape,
        k,
        p.plain.head,
        h.count.saturating_sub(1),
    );
    old_ends(jr, p, k, l);
}

// "drop an automatic entry whose head counts are then all 0" (of a slice, as `no_lines`)
#[tactic(auto, unfolding(spec::specs::Detail::drop_empty, spec::specs::Master::without_lines), using(spec::specs::Follow::goes, spec::specs::Follow::stops, journal::specs::BackLaws::back_none))]
pub fn drop_empty(jr: &mut Journal, m: SoundMaster, heads: &[u16], k: u32) -> Result<(), Refusal>
    requires { length heads.now ≤ 8 }
    ensures is { area_out result jr.new.area.now ≡ drop_empty m heads.now jr.old.area.now k }
    ensures back { Back jr.old (2 * m.shape.width + 8) jr.new }
{
    if no_lines(jr.area(), m.plain.shape, k, heads)? {
        remove_entry(jr, m, k)?;
    }
    Ok(())
}

// Of line r on the chain of record k: the head, its own links, that its neighbours are live, and that there is a line to lower
// the count by.
#[tactic(auto, unfolding(spec::specs::Detail::hung, spec::specs::Detail::head_at), using(spec::specs::Follow::goes, spec::specs::Follow::stops))]
pub fn hung_on(area: &[u16], d: Shape, p: Path, k: u32, r: u32) -> Result<Hung, Refusal>
    ensures is { result ≡ hung d p area.now k r }
    ensures counted { IfOk result (λ g. 1 ≤ g.head.count) }
{
    let head = read_head(area, d.cap, p.to.shape, k, p.head)?;
    let links = read_links(area, d, r, p.links)?;
    follow(area, d, links.back)?;
    follow(area, d, links.fore)?;
    if head.count == 0 {
        return Err(Refusal::Broken);
    }
    Ok(Hung { head, links })
}
