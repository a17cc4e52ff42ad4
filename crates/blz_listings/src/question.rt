//! What is asked of an image.
use crate::sought::Sought;
use crate::wanted::Wanted;

/// What is listed.
#[derive(Clone, Copy)]
pub enum Topic<'w> {
    /// The lines that have code.
    Lines(Wanted),
    /// The addresses of names.
    Addresses(Sought<'w>),
}

/// What is listed, and of which image.
#[derive(Clone, Copy)]
pub struct Question<'w> {
    /// The path of the image.
    pub path: &'w str,
    pub topic: Topic<'w>,
}
