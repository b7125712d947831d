//! The kind of a file, by its first bytes.
ghost use Rattle.std.specs.Prelude.{◌≡◌, ◌&&◌, ◌||◌, false};
ghost use Rattle.command.specs.Kinds.{behind_comments, ends_at_zero, is_aiger, is_binary_proof, is_drat_text, is_lrat_text, is_lrat_line, is_solver_output, is_xor_clause, kind_by, kind_of_lines, is_xor_formula};

/// A kind of file that a program is given by mistake.
#[derive(Clone, Copy, Debug, PartialEq, Eq)]
pub enum Kind {
    Gzip,
    Xz,
    Zstd,
    Bzip2,
    /// UTF-8 with a byte order mark.
    ByteOrderMark,
    Aiger,
    /// A step of binary LRAT or of binary DRAT, and a byte 0, which no text has.
    BinaryProof,
    Html,
    SmtLib,
    /// Lines that begin with `#`.
    HashComments,
    /// The header of a formula, after comments.
    Formula,
    /// A header or none, and then an XOR clause as cryptominisat writes it.
    XorFormula,
    CubeFormula,
    WeightedFormula,
    CardinalityFormula,
    /// A status line, or a line of values.
    SolverOutput,
    /// A line of DRAT text: a deletion, or numbers whose only 0 ends the line.
    DratText,
    /// A line of LRAT text: a deletion, or numbers with a second 0, which ends the line.
    LratText,
}

impl Kind {
    /// Returns its name, with an article.
    pub fn name(self) -> &'static str {
        match self {
            Kind::Gzip => "a gzip file",
            Kind::Xz => "an xz file",
            Kind::Zstd => "a zstd file",
            Kind::Bzip2 => "a bzip2 file",
            Kind::ByteOrderMark => "text with a byte order mark",
            Kind::Aiger => "an AIGER circuit",
            Kind::BinaryProof => "binary LRAT or binary DRAT",
            Kind::Html => "an HTML page",
            Kind::SmtLib => "SMT-LIB text",
            Kind::HashComments => "text with # comments",
            Kind::Formula => "a formula",
            Kind::XorFormula => "a formula with XOR clauses",
            Kind::CubeFormula => "a formula with cubes (p inccnf)",
            Kind::WeightedFormula => "a weighted formula (p wcnf)",
            Kind::CardinalityFormula => "a formula with cardinality constraints (p knf)",
            Kind::SolverOutput => "what a solver prints",
            Kind::DratText => "DRAT text",
            Kind::LratText => "LRAT text",
        }
    }
}

/// Returns the kind of a file that begins with these bytes, if it is one of these.
///
/// A formula may begin as DRAT text or LRAT text.
pub fn kind_of(bytes: &[u8]) -> Option<Kind>
    ensures { result ≡ kind_by bytes.now }
{
    if bytes.starts_with(b"\x1F\x8B") {
        Some(Kind::Gzip)
    } else if bytes.starts_with(b"\xFD7zXZ") {
        Some(Kind::Xz)
    } else if bytes.starts_with(b"\x28\xB5\x2F\xFD") {
        Some(Kind::Zstd)
    } else if bytes.starts_with(b"BZh") {
        Some(Kind::Bzip2)
    } else if bytes.starts_with(b"\xEF\xBB\xBF") {
        Some(Kind::ByteOrderMark)
    } else if is_aiger(bytes) {
        Some(Kind::Aiger)
    } else if is_binary_proof(bytes) {
        Some(Kind::BinaryProof)
    } else if bytes.starts_with(b"<") {
        Some(Kind::Html)
    } else if bytes.starts_with(b"(") {
        Some(Kind::SmtLib)
    } else if bytes.starts_with(b"#") {
        Some(Kind::HashComments)
    } else {
        kind_of_lines(behind_comments(bytes, false))
    }
}

/// Returns the kind of a text, by the lines after its first comments.
#[tactic(auto, unfolding(crate::specs::Kinds::kind_of_lines))]
fn kind_of_lines(text: &[u8]) -> Option<Kind>
    ensures { result ≡ kind_of_lines text.now }
{
    if is_xor_formula(text) {
        Some(Kind::XorFormula)
    } else if text.starts_with(b"p cnf") {
        Some(Kind::Formula)
    } else if text.starts_with(b"p inccnf") {
        Some(Kind::CubeFormula)
    } else if text.starts_with(b"p wcnf") {
        Some(Kind::WeightedFormula)
    } else if text.starts_with(b"p knf") {
        Some(Kind::CardinalityFormula)
    } else if is_solver_output(text) {
        Some(Kind::SolverOutput)
    } else if is_drat_text(text) {
        Some(Kind::DratText)
    } else if is_lrat_text(text) {
        Some(Kind::LratText)
    } else {
        None
    }
}

/// Returns whether the bytes begin as an AIGER circuit.
fn is_aiger(bytes: &[u8]) -> bool
    ensures { result ≡ is_aiger bytes.now }
{
    bytes.starts_with(b"aag ") || bytes.starts_with(b"aig ")
}

/// Returns whether the bytes begin as a binary proof.
fn is_binary_proof(bytes: &[u8]) -> bool
    ensures { result ≡ is_binary_proof bytes.now }
{
    (bytes.starts_with(b"a") || bytes.starts_with(b"d")) && bytes.contains(&0)
}

/// Returns what follows the lines that begin with `c`. If a line has begun (`in_line`), its rest is
/// skipped too.
fn behind_comments(bytes: &[u8], in_line: bool) -> &[u8]
    ensures { result.now ≡ behind_comments in_line bytes.now }
{
    let mut in_line = in_line;
    for (place, byte) in bytes.iter().enumerate() {
        if in_line {
            in_line = *byte != b'\n';
        } else if *byte == b'c' {
            in_line = true;
        } else {
            return &bytes[place..];
        }
    }
    &[]
}

/// Returns whether the first line is an XOR clause, or a header and the next line is one.
fn is_xor_formula(text: &[u8]) -> bool
    ensures { result ≡ is_xor_formula text.now }
{
    let first = if text.starts_with(b"p cnf") {
        behind_comments(text, true)
    } else {
        text
    };
    is_xor_clause(first)
}

/// Returns whether the text begins with an XOR clause.
fn is_xor_clause(text: &[u8]) -> bool
    ensures { result ≡ is_xor_clause text.now }
{
    match text {
        [b'x', byte, ..] => *byte == b' ' || *byte == b'-' || byte.is_ascii_digit(),
        _ => false,
    }
}

/// Returns whether the text begins with a status or with values.
fn is_solver_output(text: &[u8]) -> bool
    ensures { result ≡ is_solver_output text.now }
{
    text.starts_with(b"s ") || text.starts_with(b"v ")
}

/// Returns whether the first line is one of DRAT text.
fn is_drat_text(bytes: &[u8]) -> bool
    ensures { result ≡ is_drat_text bytes.now }
{
    bytes.starts_with(b"d ") || ends_at_zero(bytes)
}

/// What there is between the last blank and the next byte.
#[derive(Clone, Copy)]
enum Word {
    Nothing,
    Zero,
    Number,
}

/// Returns whether the first line is made of numbers, of which only the last one is 0.
fn ends_at_zero(bytes: &[u8]) -> bool
    ensures { result ≡ ends_at_zero Word.Nothing bytes.now }
{
    let mut word = Word::Nothing;
    for byte in bytes {
        word = match (word, *byte) {
            (Word::Zero, b'\n') => return true,
            (Word::Nothing, b'0') => Word::Zero,
            (Word::Nothing, b'-') | (Word::Nothing | Word::Number, b'0'..=b'9') => Word::Number,
            (Word::Number, b' ') => Word::Nothing,
            _ => return false,
        };
    }
    false
}

/// The part of a line of LRAT that is read.
#[derive(Clone, Copy)]
enum Part {
    Id,
    /// After the id.
    First,
    Nothing,
    Zero,
    Number,
}

/// Returns whether the first line is one of LRAT text.
fn is_lrat_text(text: &[u8]) -> bool
    ensures { result ≡ is_lrat_text text.now }
{
    !text.starts_with(b"0") && is_lrat_line(text)
}

/// Returns whether the first line is a number and a deletion, or a number, literals up to 0 and
/// others up to a 0 at its end.
fn is_lrat_line(bytes: &[u8]) -> bool
    ensures { result ≡ is_lrat_line Part.Id bytes.now }
{
    let mut part = Part::Id;
    for (place, byte) in bytes.iter().enumerate() {
        part = match (part, *byte) {
            (Part::Id, b'0'..=b'9') => Part::Id,
            (Part::Id, b' ') => Part::First,
            (Part::First, b'd') => return bytes[place..].starts_with(b"d "),
            (Part::Zero, b' ') => return ends_at_zero(&bytes[place + 1..]),
            (Part::First | Part::Nothing, b'0') => Part::Zero,
            (Part::First | Part::Nothing, b'-')
            | (Part::First | Part::Nothing | Part::Number, b'0'..=b'9') => Part::Number,
            (Part::Number, b' ') => Part::Nothing,
            _ => return false,
        };
    }
    false
}
