//! Whether what a second session is answered is what the first one left.
use crate::life::Life;
use crate::spans::Span;
use crate::story::Story;
use crate::world::Place;
use std::alloc::{AllocError, Global};
use std::fmt::Write;

/// The count of a reply `ok K`.
fn count_of(reply: &str) -> Option<u64> {
    reply.strip_prefix("ok ")?.parse::<u64>().ok()
}

/// Whether each reply is that there is no cube.
fn is_nothing(replies: &str) -> bool {
    for line in replies.lines() {
        if line != "no NoCube" {
            return false;
        }
    }
    true
}

/// Whether the replies to the looks are those of a cube that was left so.
fn is_left(place: &Place, lives: &[Life], replies: &str) -> bool {
    let Some(life) = place.life else {
        return is_nothing(replies);
    };
    let Some(life) = lives.get(life) else {
        return false;
    };
    let Some((online, rest)) = replies.split_once('\n') else {
        return false;
    };
    let Some((mount, rest)) = rest.split_once('\n') else {
        return false;
    };
    let wanted = if place.offline { "ok" } else { "no State" };
    let Some(count) = count_of(mount) else {
        return false;
    };
    online == wanted
        && place.floor <= count
        && count <= place.accepted
        && life.view(count) == Some(rest)
}

/// Whether a crash between these two may leave either: a line that makes, deletes or marks the cube was in work.
fn is_changed(before: &Place, after: &Place) -> bool {
    before.life != after.life || before.offline != after.offline
}

/// The first world of the span by which a crash can't have left the cube so.
pub fn disagreement(story: &Story, span: &Span, cube: usize, replies: &str) -> Option<Place> {
    let worlds = story.worlds.get(span.from..)?;
    let count = span.until.saturating_sub(span.from).saturating_add(1);
    for (k, world) in worlds.iter().enumerate().take(count) {
        let before = world.place(cube);
        let after = match worlds.get(k.saturating_add(1)) {
            Some(world) => world.place(cube),
            None => before,
        };
        let either = is_changed(&before, &after) && is_left(&after, &story.lives, replies);
        if !is_left(&before, &story.lives, replies) && !either {
            return Some(before);
        }
    }
    None
}

/// What was wanted of a cube, and what its looks were answered.
pub fn complaint(
    alloc: Global,
    lives: &[Life],
    place: &Place,
    replies: &str,
) -> Result<String, AllocError> {
    let (online, rest) = replies.split_once('\n').unwrap_or((replies, ""));
    let (mount, rest) = rest.split_once('\n').unwrap_or((rest, ""));
    let mut text = format!(in alloc; "wanted {place}, got {online}, {mount}")?;
    if let Some((wanted, got)) = difference(lives, place, mount, rest) {
        write!(text, "; wanted {wanted}, got {got}")?;
    }
    Ok(text)
}

/// The first reply that differs from that of the plain tree after so many changes as `mount` says.
fn difference<'a>(
    lives: &'a [Life],
    place: &Place,
    mount: &str,
    rest: &'a str,
) -> Option<(&'a str, &'a str)> {
    let view = lives.get(place.life?)?.view(count_of(mount)?)?;
    for (wanted, got) in view.lines().zip(rest.lines()) {
        if wanted != got {
            return Some((wanted, got));
        }
    }
    None
}
