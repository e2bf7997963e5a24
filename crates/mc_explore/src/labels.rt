//! What rows print of the images of a start, put together once.
ghost use Rattle.std.specs.Prelude.{◌≡◌, ◌≤◌, length, Some, IfSome};
ghost use Rattle.mc_boot.specs.Plan.{identity_of};
ghost use Rattle.mc_explore.specs.Rows.{slot_text};

use crate::row_text::put_image;
use arrayvec::ArrayString;
use mc_boot::ImageId;
use mc_start::{Line, Start};

/// The most bytes that a row has of an image.
const MOST_LABEL: usize = 54;

/// An image, and what rows print of it: its version and its size.
#[derive(Clone, Copy)]
struct Label {
    image: ImageId,
    text: ArrayString<MOST_LABEL>,
    ghost is: { text.bytes ≡ slot_text (Some (identity_of image)) },
    ghost short: { length text.bytes ≤ 54 },
}

impl Label {
    // The label of an image.
    fn new(image: ImageId) -> Label
        ensures { result.image ≡ image }
    {
        let mut line = Line::new();
        put_image(&mut line, image);
        let mut text = ArrayString::new();
        text.push_str(line.as_str());
        Label { image, text }
    }

    // The text, if it is that image's: an image of the same version and size has the same one.
    fn text_of(&self, image: &ImageId) -> Option<&str>
        ensures text { IfSome result (λ text. text.now
            ≡ slot_text (Some (identity_of image.now))) }
        ensures length { IfSome result (λ text. length text.now ≤ 54) }
    {
        if self.image.version == image.version && self.image.size == image.size {
            Some(self.text.as_str())
        } else {
            None
        }
    }
}

/// The labels of the images that a start names, if it names some.
#[derive(Clone, Copy)]
pub struct Labels {
    named: Option<Label>,
    other: Option<Label>,
}

impl Labels {
    /// No labels.
    pub fn none() -> Labels {
        Labels {
            named: None,
            other: None,
        }
    }

    /// The labels of a start. It takes no memory.
    pub fn of(start: &Start) -> Labels {
        match start.named() {
            Some((named, other)) => Labels {
                named: Some(Label::new(named)),
                other: Some(Label::new(other)),
            },
            None => Labels::none(),
        }
    }

    /// The label of that image, if it is there.
    pub fn find(&self, image: &ImageId) -> Option<&str>
        ensures text { IfSome result (λ text. text.now
            ≡ slot_text (Some (identity_of image.now))) }
        ensures length { IfSome result (λ text. length text.now ≤ 54) }
    {
        if let Some(label) = &self.named {
            let text = label.text_of(image);
            if text.is_some() {
                return text;
            }
        }
        match &self.other {
            Some(label) => label.text_of(image),
            None => None,
        }
    }
}
