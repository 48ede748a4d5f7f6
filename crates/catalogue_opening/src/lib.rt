// What a reader is opened with: the number of the refusal, and the place of its body in the file, with T and the kind. Customers call nothing here.
#![tactic(auto)]

ghost use Rattle.catalogue_opening.specs.Opened.{Opened};

// The number of the refusal, 0 where there is none; the part's place in the file, its size, T, and whether the rows have Δ.
#[derive(Clone, Copy)]
pub struct OpenedPart {
    pub refusal: u32,
    pub offset: usize,
    pub size: usize,
    pub top: u32,
    pub gaps: bool,
}

// The place of a degree's body; a part of no bytes, with T = 0 and no Δ, beside the number where the lookup is refused.
pub fn opened(file: &[u8], degree: u32) -> OpenedPart
    ensures { Opened file.now degree result }
{
    match catalogue_seek::locate(file, degree) {
        Ok(found) => OpenedPart {
            refusal: 0,
            offset: found.offset,
            size: found.size,
            top: found.top,
            gaps: found.gaps,
        },
        Err(refusal) => {
            let number = answers::refusal_number(refusal);
            OpenedPart {
                refusal: number,
                offset: 0,
                size: 0,
                top: 0,
                gaps: false,
            }
        }
    }
}
