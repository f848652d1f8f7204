// An output, and how much of a file is written there. How much there may be before a line is asked by what writes it, since it
// grows from section to section.

#[derive(Drop)]
pub struct Output<'a> {
    pub out: &'a mut [u8],
    pub bytes: usize,
    pub records: usize,
}
