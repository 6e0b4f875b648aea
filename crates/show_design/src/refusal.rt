//! Why a design isn't shown, as one line.
use crate::page::Page;
use crate::status::Status;
use pm_io::{NoMemory, Text};
use pm_nets::NetFault;
use pm_parse::ParseFault;
use pm_syn::TextFault;
use pm_types::TypeFault;
use pm_values::BuildFault;
use std::alloc::{AllocError, AllocFailed};

/// Why a design isn't shown.
#[derive(Drop)]
pub enum Refusal {
    /// Words that mean nothing.
    Usage,
    /// The file is missing or couldn't be read.
    ReadFault,
    Text(TextFault),
    Parse(ParseFault),
    Build(BuildFault),
    Type(TypeFault),
    Net(NetFault),
    NoMemory,
}

impl From<TextFault> for Refusal {
    fn from(fault: TextFault) -> Self {
        Refusal::Text(fault)
    }
}

impl From<ParseFault> for Refusal {
    fn from(fault: ParseFault) -> Self {
        Refusal::Parse(fault)
    }
}

impl From<BuildFault> for Refusal {
    fn from(fault: BuildFault) -> Self {
        Refusal::Build(fault)
    }
}

impl From<TypeFault> for Refusal {
    fn from(fault: TypeFault) -> Self {
        Refusal::Type(fault)
    }
}

impl From<NetFault> for Refusal {
    fn from(fault: NetFault) -> Self {
        Refusal::Net(fault)
    }
}

impl From<NoMemory> for Refusal {
    fn from(_error: NoMemory) -> Self {
        Refusal::NoMemory
    }
}

impl From<AllocError> for Refusal {
    fn from(_error: AllocError) -> Self {
        Refusal::NoMemory
    }
}

impl<T: Drop> From<AllocFailed<T>> for Refusal {
    fn from(_error: AllocFailed<T>) -> Self {
        Refusal::NoMemory
    }
}

impl Refusal {
    /// How the program ends with it.
    pub fn status(&self) -> Status {
        match self {
            Refusal::Usage => Status::Usage,
            Refusal::ReadFault => Status::ReadFault,
            Refusal::NoMemory
            | Refusal::Text(TextFault::NoMemory)
            | Refusal::Parse(ParseFault::NoMemory)
            | Refusal::Build(BuildFault::NoMemory)
            | Refusal::Type(TypeFault::NoMemory)
            | Refusal::Net(NetFault::NoMemory) => Status::NoMemory,
            Refusal::Text(_)
            | Refusal::Parse(_)
            | Refusal::Build(_)
            | Refusal::Type(_)
            | Refusal::Net(_) => Status::Refused,
        }
    }
}

/// Writes the refusal's line.
pub fn write_refusal(page: &mut Page, refusal: &Refusal) {
    match refusal {
        Refusal::Usage => page.put(b"usage: show_design LAYER FILE TOP [name=value ..]"),
        Refusal::ReadFault => page.put(b"read fault"),
        Refusal::Text(fault) => write_text_fault(page, fault),
        Refusal::Parse(fault) => write_parse_fault(page, fault),
        Refusal::Build(fault) => write_build_fault(page, fault),
        Refusal::Type(fault) => write_type_fault(page, fault),
        Refusal::Net(fault) => write_net_fault(page, fault),
        Refusal::NoMemory => page.put(b"out of memory"),
    }
    page.put(b"\n");
}

fn write_text_fault(page: &mut Page, fault: &TextFault) {
    match fault {
        TextFault::FileTooLong => page.put(b"1 FileTooLong"),
        TextFault::BadToken(line) => at_line(page, b"2 BadToken", *line),
        TextFault::BadIndent(line) => at_line(page, b"3 BadIndent", *line),
        TextFault::LineTooLong(line) => at_line(page, b"4 LineTooLong", *line),
        TextFault::NoMemory => page.put(b"out of memory"),
    }
}

fn write_parse_fault(page: &mut Page, fault: &ParseFault) {
    match fault {
        ParseFault::Syntax(line) => at_line(page, b"5 Syntax", *line),
        ParseFault::TooDeep(line) => at_line(page, b"6 TooDeep", *line),
        ParseFault::Layout(line) => at_line(page, b"7 Layout", *line),
        ParseFault::NoMemory => page.put(b"out of memory"),
    }
}

fn write_build_fault(page: &mut Page, fault: &BuildFault) {
    match fault {
        BuildFault::NoClass(name) => with_name(page, b"10 NoClass ", name.as_slice()),
        BuildFault::BadParameter(name) => with_name(page, b"11 BadParameter ", name.as_slice()),
        BuildFault::BadArguments(line) => at_line(page, b"11 BadParameter", *line),
        BuildFault::Unbound(line) => at_line(page, b"12 Unbound", *line),
        BuildFault::WrongKind(line) => at_line(page, b"13 WrongKind", *line),
        BuildFault::IntRange(line) => at_line(page, b"14 IntRange", *line),
        BuildFault::WidthRange(line) => at_line(page, b"15 WidthRange", *line),
        BuildFault::SameName(line) => at_line(page, b"16 SameName", *line),
        BuildFault::AssertFailed(line) => at_line(page, b"17 AssertFailed", *line),
        BuildFault::BuildBudget(line) => at_line(page, b"18 BuildBudget", *line),
        BuildFault::TooManyInstances(line) => at_line(page, b"19 TooManyInstances", *line),
        BuildFault::BuildDepth(line) => at_line(page, b"20 BuildDepth", *line),
        BuildFault::LateCapture(line) => at_line(page, b"21 LateCapture", *line),
        BuildFault::NoMemory => page.put(b"out of memory"),
    }
}

fn write_type_fault(page: &mut Page, fault: &TypeFault) {
    match fault {
        TypeFault::WidthMismatch(line) => at_line(page, b"30 WidthMismatch", *line),
        TypeFault::ConstRange(line) => at_line(page, b"31 ConstRange", *line),
        TypeFault::MaybeUnbound(line) => at_line(page, b"32 MaybeUnbound", *line),
        TypeFault::NotAllowedHere(line) => at_line(page, b"33 NotAllowedHere", *line),
        TypeFault::IndexRange(line) => at_line(page, b"34 IndexRange", *line),
        TypeFault::BodyTooLong(line) => at_line(page, b"35 BodyTooLong", *line),
        TypeFault::NoMemory => page.put(b"out of memory"),
    }
}

fn write_net_fault(page: &mut Page, fault: &NetFault) {
    match fault {
        NetFault::BadDirection(line) => at_line(page, b"40 BadDirection", *line),
        NetFault::JoinMismatch(line) => at_line(page, b"41 JoinMismatch", *line),
        NetFault::MultiWriter(signal, bit) => at_bit(page, b"42 MultiWriter ", signal, *bit),
        NetFault::NoWriter(signal, bit) => at_bit(page, b"43 NoWriter ", signal, *bit),
        NetFault::TooManyBits(count) => with_count(page, b"44 TooManyBits ", *count),
        NetFault::NoCallee(port) => with_name(page, b"45 NoCallee ", port.as_slice()),
        NetFault::TwoCallees(port) => with_name(page, b"46 TwoCallees ", port.as_slice()),
        NetFault::MethodCycle(method) => with_name(page, b"47 MethodCycle ", method.as_slice()),
        NetFault::TooMuchWork(count) => with_count(page, b"48 TooMuchWork ", *count),
        NetFault::NoMemory => page.put(b"out of memory"),
    }
}

fn with_count(page: &mut Page, refusal: &[u8], count: u64) {
    page.put(refusal);
    page.put_wide(u128::from(count));
}

fn at_bit(page: &mut Page, refusal: &[u8], signal: &Text, bit: u32) {
    with_name(page, refusal, signal.as_slice());
    page.put_field(b"bit", bit);
}

fn with_name(page: &mut Page, refusal: &[u8], name: &[u8]) {
    page.put(refusal);
    page.put(name);
}

fn at_line(page: &mut Page, refusal: &[u8], line: u32) {
    page.put(refusal);
    page.put_field(b"line", line);
}
