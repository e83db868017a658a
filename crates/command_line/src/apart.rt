//! The files of a request, none of which stands in another's place.
ghost use Rattle.std.specs.Prelude.{◌≡◌, false};
ghost use Rattle.std.specs.Option.{option_map_or};
ghost use Rattle.command_line.specs.Apart.{apart_alone, apart_in, is_image_over_read, is_image_read, is_made_over, is_on_output, is_over_read, is_read, is_typed, shares_input};
ghost use Rattle.command_line.specs.Said.{word_of};

use crate::input::{are_one_input, is_standard_input};
use crate::request::{LoneTask, Work};

/// Why the files of a request do not stand apart.
#[derive(Clone, Copy, Debug, PartialEq, Eq)]
pub(crate) enum ApartFault {
    /// The plant and what is read beside it are both to be read from the standard input.
    OneInput,
    /// The picks behind which a plant is run by hand are to be read from the standard input, where the lines are typed.
    PicksTyped,
    /// What is fired is to be saved on the standard output, where the run is printed.
    SavedOnOutput,
    /// What is fired is to be saved in the file from which the plant or the picks are read, and would destroy it.
    SavedOverRead,
    /// An image is to be kept in the file from which the plant or the script is read.
    ImageOverRead,
    /// An image is to be made of another one, or copied, and both are the same file.
    OneImage,
}

/// Whether the files of a work stand apart, by their paths as they are written: the plant, what is read beside it, the picks behind which it is run by
/// hand, the file in which is saved what is fired, and the images.
pub(crate) fn stand_apart(plant: &str, work: &Work<'_>) -> Result<(), ApartFault>
    ensures { result ≡ apart_in plant.now work.now }
{
    let input = work.input();
    if shares_input(plant, input) {
        Err(ApartFault::OneInput)
    } else if is_typed(work.recording()) {
        Err(ApartFault::PicksTyped)
    } else if is_on_output(work.saved()) {
        Err(ApartFault::SavedOnOutput)
    } else if is_over_read(plant, input, work.saved()) {
        Err(ApartFault::SavedOverRead)
    } else if is_image_over_read(plant, input, work.image())
        || is_image_over_read(plant, input, work.made())
    {
        Err(ApartFault::ImageOverRead)
    } else if is_one_image(work.image(), work.made()) {
        Err(ApartFault::OneImage)
    } else {
        Ok(())
    }
}

/// Whether an image and the file that is made of it stand apart, by their paths as they are written.
pub(crate) fn stands_alone(image: &str, task: LoneTask<'_>) -> Result<(), ApartFault>
    ensures { result ≡ apart_alone image.now task.entry }
{
    if is_made_over(task.made(), image) {
        Err(ApartFault::OneImage)
    } else {
        Ok(())
    }
}

/// Whether the plant and what is read beside it are both the standard input.
fn shares_input(plant: &str, input: Option<&str>) -> bool
    ensures { result ≡ shares_input plant.now (word_of input.entry) }
{
    match input {
        Some(input) => are_one_input(plant, input),
        None => false,
    }
}

/// Whether the picks behind which a plant is run by hand are the standard input.
fn is_typed(recording: Option<&str>) -> bool
    ensures { result ≡ is_typed (word_of recording.entry) }
{
    match recording {
        Some(path) => is_standard_input(path),
        None => false,
    }
}

/// Whether what is fired is to be saved on the standard output.
fn is_on_output(saved: Option<&str>) -> bool
    ensures { result ≡ is_on_output (word_of saved.entry) }
{
    match saved {
        Some(saved) => is_standard_input(saved),
        None => false,
    }
}

/// Whether what is fired is to be saved where the plant is read, or what is read beside it.
fn is_over_read(plant: &str, input: Option<&str>, saved: Option<&str>) -> bool
    ensures { result ≡ is_over_read plant.now (word_of input.entry) (word_of saved.entry) }
{
    match saved {
        Some(saved) => is_read(plant, input, saved),
        None => false,
    }
}

/// Whether the plant is read at the path, or what is read beside it.
fn is_read(plant: &str, input: Option<&str>, path: &str) -> bool
    ensures { result ≡ is_read plant.now (word_of input.entry) path.now }
{
    match input {
        Some(input) => path.as_bytes() == plant.as_bytes() || path.as_bytes() == input.as_bytes(),
        None => path.as_bytes() == plant.as_bytes(),
    }
}

/// Whether an image is kept where the plant is read, or what is read beside it. An image at `-` is a file of that name.
fn is_image_over_read(plant: &str, input: Option<&str>, image: Option<&str>) -> bool
    ensures { result ≡ is_image_over_read plant.now (word_of input.entry) (word_of image.entry) }
{
    match image {
        Some(image) => is_image_read(plant, input, image),
        None => false,
    }
}

/// Whether the image at the path is kept where the plant is read, or what is read beside it.
fn is_image_read(plant: &str, input: Option<&str>, image: &str) -> bool
    ensures { result ≡ is_image_read plant.now (word_of input.entry) image.now }
{
    !is_standard_input(image) && is_read(plant, input, image)
}

/// Whether the image is the file that is made of it.
fn is_one_image(image: Option<&str>, made: Option<&str>) -> bool
    ensures { result ≡ option_map_or (is_made_over (word_of made.entry)) (word_of image.entry) false }
{
    match image {
        Some(image) => is_made_over(made, image),
        None => false,
    }
}

/// Whether the file that is made of the image at the path is that image.
fn is_made_over(made: Option<&str>, image: &str) -> bool
    ensures { result ≡ is_made_over (word_of made.entry) image.now }
{
    match made {
        Some(made) => image.as_bytes() == made.as_bytes(),
        None => false,
    }
}
