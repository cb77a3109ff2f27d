//! The words of the program.
ghost use Rattle.std.specs.Prelude.{◌≡◌, length, true, IfSome};
ghost use Rattle.std.specs.Str.{bytes_eq};
ghost use Rattle.ice_layout.specs.Supers.{is_geometry};
ghost use Rattle.ice_script.specs.Grammar.{number_of};
ghost use Rattle.ice_run.specs.Forms.{is_image, number_in, geometry_of, request_of, format_form, run_form, ImageGives};
ghost use Rattle.ice_run.specs.Readings.{FormGives};

use ice_base::{Image, ImageFault, Words};
use ice_layout::{Super, total};
use ice_script::read_number;
use std::alloc::Global;

/// What the words ask for.
#[derive(Clone, Copy, Debug)]
pub(crate) enum Form<'a> {
    /// A fresh image of this geometry.
    Format { image: &'a str, sup: Super },
    /// A session on the image.
    Run { image: &'a str },
}

fn names_image(word: &str) -> bool
    ensures { result ≡ is_image word.now }
{
    let bytes = word.as_bytes();
    !bytes.is_empty() && bytes[0] != b'-'
}

fn number_between(word: &str, low: u32, high: u32) -> Option<u32>
    ensures { result ≡ number_in low high (number_of word.now) }
{
    let number = read_number(word.as_bytes())?;
    if low <= number && number <= high {
        Some(number)
    } else {
        None
    }
}

fn read_geometry(slots: &str, groups: &str) -> Option<Super>
    ensures value { result ≡ geometry_of (number_in 1 16 (number_of slots.now)) (number_in 1 1024 (number_of groups.now)) }
    ensures proper { IfSome result (λ sup. is_geometry sup ≡ true) }
{
    let slots = number_between(slots, 1, 16)?;
    let groups = number_between(groups, 1, 1024)?;
    Some(Super {
        slots: slots as u8,
        groups: groups as u16,
    })
}

fn is_word(word: &str, wanted: &[u8]) -> bool
    ensures { result ≡ bytes_eq word.now wanted.now }
{
    word.as_bytes() == wanted
}

fn read_format(words: &Words) -> Option<Form<'_>>
    requires { length words.now ≡ 6 }
    ensures { FormGives (format_form words.entry.now) result }
{
    let image = words.word(1);
    if !is_word(words.word(0), b"format")
        || !names_image(image)
        || !is_word(words.word(2), b"--slots")
        || !is_word(words.word(4), b"--groups")
    {
        return None;
    }
    let sup = read_geometry(words.word(3), words.word(5))?;
    Some(Form::Format { image, sup })
}

fn read_run(words: &Words) -> Option<Form<'_>>
    requires { length words.now ≡ 2 }
    ensures { FormGives (run_form words.entry.now) result }
{
    let image = words.word(1);
    if is_word(words.word(0), b"run") && names_image(image) {
        Some(Form::Run { image })
    } else {
        None
    }
}

#[tactic(auto, unfolding(crate::specs::Forms::request_of))]
/// The form of the words, or none.
pub(crate) fn read_form(words: &Words) -> Option<Form<'_>>
    ensures { FormGives (request_of words.entry.now) result }
{
    match words.len() {
        6 => read_format(words),
        2 => read_run(words),
        _ => None,
    }
}

/// The image that the words name, and the number of blocks that its file must have at least: the total of the geometry for `format`, 0 for the others.
pub fn image_of<'a>(_alloc: Global, words: &'a Words) -> Result<Image<'a>, ImageFault>
    ensures { ImageGives words.entry.now result }
{
    match read_form(words) {
        Some(Form::Format { image, sup }) => Ok(Image {
            name: image,
            least: total(sup.slots, sup.groups),
        }),
        Some(Form::Run { image }) => Ok(Image {
            name: image,
            least: 0,
        }),
        None => Err(ImageFault::Usage),
    }
}
