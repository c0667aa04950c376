ghost use Rattle.image.specs.BuiltIn.{built_in};
ghost use Rattle.image.specs.Numbers.{number_of};
ghost use Rattle.image.specs.Verdict.{verdict};
ghost use Rattle.image.specs.WellFormed.{Judged};
ghost use Rattle.std.specs.Prelude.{◌≡◌, is_ok, if◌then◌else◌};

use crate::image::Image;
use crate::refusal::Refusal;

// The image of a program that sets x1 to 5 and stays: a file header, one program header and two words.
const BUILT_IN: &[u8; 92] = b"\
    \x7fELF\x01\x01\x01\x00\x00\x00\x00\x00\x00\x00\x00\x00\
    \x02\x00\xf3\x00\x01\x00\x00\x00\x00\x00\x00\x80\x34\x00\x00\x00\
    \x00\x00\x00\x00\x00\x00\x00\x00\x34\x00\x20\x00\x01\x00\x28\x00\
    \x00\x00\x00\x00\
    \x01\x00\x00\x00\x54\x00\x00\x00\x00\x00\x00\x80\x00\x00\x00\x80\
    \x08\x00\x00\x00\x08\x00\x00\x00\x05\x00\x00\x00\x04\x00\x00\x00\
    \x93\x00\x50\x00\x6f\x00\x00\x00";

// The place of the image in use: the built-in one until a check is taken.
#[derive(Drop)]
pub struct ImageHolder<'a> {
    image: Image<'a>,
}

impl<'a> ImageHolder<'a> {
    pub fn new() -> Self
        ensures { result.image.bytes.now ≡ built_in }
    {
        ImageHolder {
            image: Image::new(BUILT_IN),
        }
    }

    // The image in use.
    pub fn image(&self) -> &Image<'a>
        ensures { result.now ≡ self.now.image }
    {
        &self.image
    }

    // Puts a file in the image's place if it is well formed. A refused file leaves the image that was there.
    pub fn check(&mut self, bytes: &'a [u8]) -> Result<(), Refusal>
        ensures verdict { number_of result ≡ verdict bytes.now }
        ensures judged { Judged bytes.now (number_of result) }
        ensures after { self.new.image.bytes.now ≡ (if is_ok result then bytes.now else self.old.image.bytes.now) }
    {
        self.image = Image::check(bytes)?;
        Ok(())
    }
}
