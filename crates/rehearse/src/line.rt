// A line of the script.

#[derive(Clone, Copy)]
pub(crate) struct Line<'a> {
    pub(crate) number: u64,
    pub(crate) text: &'a str,
}

impl<'a> Line<'a> {
    // The call as it was written: without blanks around it and without a comment.
    pub(crate) fn written(&self) -> &'a str {
        self.text
            .split_once('#')
            .map_or(self.text, |(call, _)| call)
            .trim()
    }
}
