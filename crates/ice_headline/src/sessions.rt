//! Two sessions, one after the other.
ghost use Rattle.std.specs.Prelude.{◌≡◌, ℕ, List, Some};
ghost use Rattle.ice_run.specs.Forms.{request_of, Runs};
ghost use Rattle.ice_headline.specs.Headline.{After};

use ice_base::{Host, Status, Words};
use ice_images::fits_but_opens;
use ice_run::run;
use std::alloc::Global;

/// Runs two sessions. The second host stands for what a crash in the first session and damage to one cube left.
///
/// Whatever script runs and wherever a crash falls before or within a disk write, and whatever bytes then fill the sub-super block, journal and
/// groups of one cube, every other live cube mounts with the tree after its first k accepted commands, where k is the count that it records and
/// includes every acknowledged command, and thereafter answers as the model does on its own commands and groups alone.
pub fn two_sessions<H: Host, G: Host>(
    alloc: Global,
    words: &Words,
    first: &mut H,
    second: &mut G,
) -> (Status, Status)
    requires { (image : List ℕ) × (request_of words.now ≡ Some (Runs image)) }
    ensures { After H.state H.left G.state G.left result.1 first.old first.new second.old second.new }
{
    // A law: an image that fits a world but for one cube opens one, with what is left of the others.
    fits_but_opens();
    let status = run(alloc, words, first);
    (status, run(alloc, words, second))
}
