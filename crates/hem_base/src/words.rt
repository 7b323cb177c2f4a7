//! Reserved words and signs of documents.

ghost use Rattle.std.specs.Prelude.{◌≡◌};
ghost use Rattle.std.specs.List.{list_all};
ghost use Rattle.hem_base.specs.Words.{word_bytes, sign_bytes, is_reserved, is_word_byte, is_word_text};

/// The reserved words of documents. `Own` is the word `self`.
#[derive(Clone, Copy, Debug, PartialEq, Eq)]
pub enum Reserved {
    Protocol,
    Use,
    Status,
    Message,
    Kind,
    Root,
    Mid,
    Leaf,
    Field,
    Init,
    Dir,
    Rule,
    Take,
    Need,
    Up,
    Down,
    Any,
    Free,
    Child,
    Parent,
    Own,
    When,
    In,
    All,
    Asked,
    Set,
    Lock,
    Send,
    End,
    Me,
    Kids,
    Others,
    None,
    Val,
    Targets,
    Msg,
    Kept,
    Rs,
    ExtReq,
    ExtRsp,
    UpReq,
    UpRsp,
    DownReq,
    DownRsp,
    Tree,
    Work,
    Lines,
    At,
    Line,
    History,
    From,
    Modules,
    Reg,
    Queue,
    Spontaneous,
    Do,
    If,
    And,
    Head,
    Deq,
    Enq,
    Value,
    Never,
    Feed,
}

/// The signs of documents.
#[derive(Clone, Copy, Debug, PartialEq, Eq)]
pub enum Sign {
    Open,
    Close,
    Comma,
    Assign,
    Differs,
    Equals,
    Or,
}

/// How a reserved word is spelled.
pub fn word_bytes(word: Reserved) -> &'static [u8]
    ensures { result.now ≡ word_bytes word }
{
    match word {
        Reserved::Protocol => b"protocol",
        Reserved::Use => b"use",
        Reserved::Status => b"status",
        Reserved::Message => b"message",
        Reserved::Kind => b"kind",
        Reserved::Root => b"root",
        Reserved::Mid => b"mid",
        Reserved::Leaf => b"leaf",
        Reserved::Field => b"field",
        Reserved::Init => b"init",
        Reserved::Dir => b"dir",
        Reserved::Rule => b"rule",
        Reserved::Take => b"take",
        Reserved::Need => b"need",
        Reserved::Up => b"up",
        Reserved::Down => b"down",
        Reserved::Any => b"any",
        Reserved::Free => b"free",
        Reserved::Child => b"child",
        Reserved::Parent => b"parent",
        Reserved::Own => b"self",
        Reserved::When => b"when",
        Reserved::In => b"in",
        Reserved::All => b"all",
        Reserved::Asked => b"asked",
        Reserved::Set => b"set",
        Reserved::Lock => b"lock",
        Reserved::Send => b"send",
        Reserved::End => b"end",
        Reserved::Me => b"me",
        Reserved::Kids => b"kids",
        Reserved::Others => b"others",
        Reserved::None => b"none",
        Reserved::Val => b"val",
        Reserved::Targets => b"targets",
        Reserved::Msg => b"msg",
        Reserved::Kept => b"kept",
        Reserved::Rs => b"rs",
        Reserved::ExtReq => b"ext_req",
        Reserved::ExtRsp => b"ext_rsp",
        Reserved::UpReq => b"up_req",
        Reserved::UpRsp => b"up_rsp",
        Reserved::DownReq => b"down_req",
        Reserved::DownRsp => b"down_rsp",
        Reserved::Tree => b"tree",
        Reserved::Work => b"work",
        Reserved::Lines => b"lines",
        Reserved::At => b"at",
        Reserved::Line => b"line",
        Reserved::History => b"history",
        Reserved::From => b"from",
        Reserved::Modules => b"modules",
        Reserved::Reg => b"reg",
        Reserved::Queue => b"queue",
        Reserved::Spontaneous => b"spontaneous",
        Reserved::Do => b"do",
        Reserved::If => b"if",
        Reserved::And => b"and",
        Reserved::Head => b"head",
        Reserved::Deq => b"deq",
        Reserved::Enq => b"enq",
        Reserved::Value => b"value",
        Reserved::Never => b"never",
        Reserved::Feed => b"feed",
    }
}

/// How a sign is spelled.
pub fn sign_bytes(sign: Sign) -> &'static [u8]
    ensures { result.now ≡ sign_bytes sign }
{
    match sign {
        Sign::Open => b"(",
        Sign::Close => b")",
        Sign::Comma => b",",
        Sign::Assign => b":=",
        Sign::Differs => b"!=",
        Sign::Equals => b"=",
        Sign::Or => b"|",
    }
}

const WORDS: [Reserved; 64] = [
    Reserved::Protocol,
    Reserved::Use,
    Reserved::Status,
    Reserved::Message,
    Reserved::Kind,
    Reserved::Root,
    Reserved::Mid,
    Reserved::Leaf,
    Reserved::Field,
    Reserved::Init,
    Reserved::Dir,
    Reserved::Rule,
    Reserved::Take,
    Reserved::Need,
    Reserved::Up,
    Reserved::Down,
    Reserved::Any,
    Reserved::Free,
    Reserved::Child,
    Reserved::Parent,
    Reserved::Own,
    Reserved::When,
    Reserved::In,
    Reserved::All,
    Reserved::Asked,
    Reserved::Set,
    Reserved::Lock,
    Reserved::Send,
    Reserved::End,
    Reserved::Me,
    Reserved::Kids,
    Reserved::Others,
    Reserved::None,
    Reserved::Val,
    Reserved::Targets,
    Reserved::Msg,
    Reserved::Kept,
    Reserved::Rs,
    Reserved::ExtReq,
    Reserved::ExtRsp,
    Reserved::UpReq,
    Reserved::UpRsp,
    Reserved::DownReq,
    Reserved::DownRsp,
    Reserved::Tree,
    Reserved::Work,
    Reserved::Lines,
    Reserved::At,
    Reserved::Line,
    Reserved::History,
    Reserved::From,
    Reserved::Modules,
    Reserved::Reg,
    Reserved::Queue,
    Reserved::Spontaneous,
    Reserved::Do,
    Reserved::If,
    Reserved::And,
    Reserved::Head,
    Reserved::Deq,
    Reserved::Enq,
    Reserved::Value,
    Reserved::Never,
    Reserved::Feed,
];

/// Whether a word is reserved.
pub fn is_reserved(text: &[u8]) -> bool
    ensures { result ≡ is_reserved text.now }
{
    WORDS.iter().any(|word| word_bytes(*word) == text)
}

fn is_word_byte(b: u8) -> bool
    ensures { result ≡ is_word_byte b }
{
    b.is_ascii_alphabetic() || b.is_ascii_digit() || b == b'_'
}

fn all_word_bytes(bytes: &[u8]) -> bool
    ensures { result ≡ list_all is_word_byte bytes.now }
{
    bytes.iter().all(|b| is_word_byte(*b))
}

/// Whether bytes are letters, digits and `_`, of which the first is a letter.
pub fn is_word_text(text: &[u8]) -> bool
    ensures { result ≡ is_word_text text.now }
{
    match text {
        [] => false,
        [first, rest @ ..] => first.is_ascii_alphabetic() && all_word_bytes(rest),
    }
}
