// The refusals of document 01's table. Each variant's number stands once in the definitions and once in the code, and the contracts here tie
// the two together.
ghost use Rattle.std.specs.Prelude.{◌≡◌};
ghost use Rattle.limits.specs.Numbers.{number_of, place_of};

// A refusal, with what its place names.
#[derive(Clone, Copy, Debug, PartialEq, Eq)]
pub enum Refusal {
    // 1: more is asked than may be.
    AskedTooMuch,
    // 2: the list's length is no multiple of 3.
    NotThrees,
    // 3: there is no triangle.
    NoTriangle,
    // 4: there are too many triangles or vertices.
    TooLarge,
    // 5: a lent buffer is shorter than needed.
    TooShort,
    // 6: a corner of the triangle is not below V.
    CornerNotBelow { triangle: usize },
    // 7: two corners of the triangle are equal.
    EqualCorners { triangle: usize },
    // 8: the triangle is the same as an earlier one.
    SameAsEarlier { triangle: usize },
    // 9: the vertex is in no triangle.
    InNoTriangle { vertex: usize },
    // 10: the triangle is not connected to triangle 0.
    NotConnected { triangle: usize },
    // 11: there is no reading in the role asked.
    NoReading,
    // 12: the line is not as required.
    LineWrong { line: usize },
    // 13: the program's input is too long.
    InputTooLong,
    // 14: the text is not as required from the byte on.
    TextWrong { byte: usize },
    // 15: there is a reading by the old rule alone, and the triangle disagrees with it.
    InsideOut { triangle: usize },
}

impl Refusal {
    // The number in the table.
    pub fn number(self) -> u64
        ensures { result ≡ number_of self }
    {
        match self {
            Refusal::AskedTooMuch => 1,
            Refusal::NotThrees => 2,
            Refusal::NoTriangle => 3,
            Refusal::TooLarge => 4,
            Refusal::TooShort => 5,
            Refusal::CornerNotBelow { .. } => 6,
            Refusal::EqualCorners { .. } => 7,
            Refusal::SameAsEarlier { .. } => 8,
            Refusal::InNoTriangle { .. } => 9,
            Refusal::NotConnected { .. } => 10,
            Refusal::NoReading => 11,
            Refusal::LineWrong { .. } => 12,
            Refusal::InputTooLong => 13,
            Refusal::TextWrong { .. } => 14,
            Refusal::InsideOut { .. } => 15,
        }
    }

    // The place that is named, or 0.
    pub fn place(self) -> u64
        ensures { result ≡ place_of self }
    {
        match self {
            Refusal::CornerNotBelow { triangle }
            | Refusal::EqualCorners { triangle }
            | Refusal::SameAsEarlier { triangle }
            | Refusal::NotConnected { triangle }
            | Refusal::InsideOut { triangle } => triangle as u64,
            Refusal::InNoTriangle { vertex } => vertex as u64,
            Refusal::LineWrong { line } => line as u64,
            Refusal::TextWrong { byte } => byte as u64,
            _ => 0,
        }
    }
}
