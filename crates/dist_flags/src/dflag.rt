//! The flags by name.

ghost use Rattle.std.specs.{Prelude.◌≡◌, Prelude.◌^◌, Prelude.◌<◌, Prelude.IfSome, Prelude.Some, List.find};
ghost use Rattle.dist_flags.specs.{declared.dflag.Dflag.Dflag, Names.all_flags, Names.bit_of, Names.flag_of, Names.name_of, Names.has_name};

use dist_names::Flags;

/// An ability that a node announces, one bit of its flags. In Erlang/OTP each has `DFLAG_` before its name.
///
/// Source: ERTS User's Guide, Distribution Protocol, Distribution Flags; `dist.hrl` of the application kernel in OTP 23, 25,
/// 27 and 29. Bits 15, 21 and 27 to 31 have no name there, nor has any above 38.
#[derive(Clone, Copy)]
pub enum Dflag {
    /// `DFLAG_PUBLISHED`, bit 0: the node is not hidden.
    Published,
    /// `DFLAG_ATOM_CACHE`, bit 1: an atom cache of an old form.
    AtomCache,
    /// `DFLAG_EXTENDED_REFERENCES`, bit 2: references of several words.
    ExtendedReferences,
    /// `DFLAG_DIST_MONITOR`, bit 3: monitors over the network.
    DistMonitor,
    /// `DFLAG_FUN_TAGS`, bit 4: a tag of its own for funs.
    FunTags,
    /// `DFLAG_DIST_MONITOR_NAME`, bit 5: monitors of registered names.
    DistMonitorName,
    /// `DFLAG_HIDDEN_ATOM_CACHE`, bit 6: an atom cache between hidden nodes.
    HiddenAtomCache,
    /// `DFLAG_NEW_FUN_TAGS`, bit 7: the newer tag for funs.
    NewFunTags,
    /// `DFLAG_EXTENDED_PIDS_PORTS`, bit 8: pids and ports with more bits.
    ExtendedPidsPorts,
    /// `DFLAG_EXPORT_PTR_TAG`, bit 9: a tag of its own for external funs.
    ExportPtrTag,
    /// `DFLAG_BIT_BINARIES`, bit 10: bit strings.
    BitBinaries,
    /// `DFLAG_NEW_FLOATS`, bit 11: floats in 8 bytes.
    NewFloats,
    /// `DFLAG_UNICODE_IO`, bit 12: Unicode in the io protocol.
    UnicodeIo,
    /// `DFLAG_DIST_HDR_ATOM_CACHE`, bit 13: the atom cache in the distribution header.
    DistHdrAtomCache,
    /// `DFLAG_SMALL_ATOM_TAGS`, bit 14: short tags for atoms.
    SmallAtomTags,
    /// `DFLAG_UTF8_ATOMS`, bit 16: atoms in UTF-8.
    Utf8Atoms,
    /// `DFLAG_MAP_TAG`, bit 17: maps.
    MapTag,
    /// `DFLAG_BIG_CREATION`, bit 18: creations of 32 bits.
    BigCreation,
    /// `DFLAG_SEND_SENDER`, bit 19: sends that carry the sender.
    SendSender,
    /// `DFLAG_BIG_SEQTRACE_LABELS`, bit 20: any term as a label of sequential tracing.
    BigSeqtraceLabels,
    /// `DFLAG_EXIT_PAYLOAD`, bit 22: exit reasons behind their control message.
    ExitPayload,
    /// `DFLAG_FRAGMENTS`, bit 23: large messages in fragments.
    Fragments,
    /// `DFLAG_HANDSHAKE_23`, bit 24: the handshake of version 6.
    Handshake23,
    /// `DFLAG_UNLINK_ID`, bit 25: unlinks that are acknowledged.
    UnlinkId,
    /// `DFLAG_MANDATORY_25_DIGEST`, bit 26: all that OTP 25 asks for, in one bit.
    Mandatory25Digest,
    /// `DFLAG_SPAWN`, bit 32: spawns by request.
    Spawn,
    /// `DFLAG_NAME_ME`, bit 33: the node asks to be given a name.
    NameMe,
    /// `DFLAG_V4_NC`, bit 34: pids, ports and references with still more bits.
    V4Nc,
    /// `DFLAG_ALIAS`, bit 35: process aliases.
    Alias,
    /// `DFLAG_LOCAL_EXT`, bit 36: used inside a node alone.
    LocalExt,
    /// `DFLAG_ALTACT_SIG`, bit 37: signals of alternative actions.
    AltactSig,
    /// `DFLAG_NATIVE_RECORDS`, bit 38: native records.
    NativeRecords,
}

/// All flags with a name, from the lowest bit up.
const ALL: [Dflag; 32] = [
    Dflag::Published,
    Dflag::AtomCache,
    Dflag::ExtendedReferences,
    Dflag::DistMonitor,
    Dflag::FunTags,
    Dflag::DistMonitorName,
    Dflag::HiddenAtomCache,
    Dflag::NewFunTags,
    Dflag::ExtendedPidsPorts,
    Dflag::ExportPtrTag,
    Dflag::BitBinaries,
    Dflag::NewFloats,
    Dflag::UnicodeIo,
    Dflag::DistHdrAtomCache,
    Dflag::SmallAtomTags,
    Dflag::Utf8Atoms,
    Dflag::MapTag,
    Dflag::BigCreation,
    Dflag::SendSender,
    Dflag::BigSeqtraceLabels,
    Dflag::ExitPayload,
    Dflag::Fragments,
    Dflag::Handshake23,
    Dflag::UnlinkId,
    Dflag::Mandatory25Digest,
    Dflag::Spawn,
    Dflag::NameMe,
    Dflag::V4Nc,
    Dflag::Alias,
    Dflag::LocalExt,
    Dflag::AltactSig,
    Dflag::NativeRecords,
];

impl Dflag {
    /// All flags with a name, from the lowest bit up.
    pub fn all() -> [Dflag; 32]
        ensures { result ≡ all_flags }
    {
        ALL
    }

    /// The number of its bit.
    pub fn bit(self) -> u32
        ensures same { result ≡ bit_of self }
        ensures fits { result < 64 }
    {
        match self {
            Dflag::Published => 0,
            Dflag::AtomCache => 1,
            Dflag::ExtendedReferences => 2,
            Dflag::DistMonitor => 3,
            Dflag::FunTags => 4,
            Dflag::DistMonitorName => 5,
            Dflag::HiddenAtomCache => 6,
            Dflag::NewFunTags => 7,
            Dflag::ExtendedPidsPorts => 8,
            Dflag::ExportPtrTag => 9,
            Dflag::BitBinaries => 10,
            Dflag::NewFloats => 11,
            Dflag::UnicodeIo => 12,
            Dflag::DistHdrAtomCache => 13,
            Dflag::SmallAtomTags => 14,
            Dflag::Utf8Atoms => 16,
            Dflag::MapTag => 17,
            Dflag::BigCreation => 18,
            Dflag::SendSender => 19,
            Dflag::BigSeqtraceLabels => 20,
            Dflag::ExitPayload => 22,
            Dflag::Fragments => 23,
            Dflag::Handshake23 => 24,
            Dflag::UnlinkId => 25,
            Dflag::Mandatory25Digest => 26,
            Dflag::Spawn => 32,
            Dflag::NameMe => 33,
            Dflag::V4Nc => 34,
            Dflag::Alias => 35,
            Dflag::LocalExt => 36,
            Dflag::AltactSig => 37,
            Dflag::NativeRecords => 38,
        }
    }

    /// The flags in which only this one is set.
    pub fn flags(self) -> Flags
        ensures { result.0 ≡ flag_of self }
    {
        Flags(1 << self.bit())
    }

    /// Its name, without `DFLAG_`.
    pub fn name(self) -> &'static str
        ensures { result.now ≡ name_of self }
    {
        match self {
            Dflag::Published => "PUBLISHED",
            Dflag::AtomCache => "ATOM_CACHE",
            Dflag::ExtendedReferences => "EXTENDED_REFERENCES",
            Dflag::DistMonitor => "DIST_MONITOR",
            Dflag::FunTags => "FUN_TAGS",
            Dflag::DistMonitorName => "DIST_MONITOR_NAME",
            Dflag::HiddenAtomCache => "HIDDEN_ATOM_CACHE",
            Dflag::NewFunTags => "NEW_FUN_TAGS",
            Dflag::ExtendedPidsPorts => "EXTENDED_PIDS_PORTS",
            Dflag::ExportPtrTag => "EXPORT_PTR_TAG",
            Dflag::BitBinaries => "BIT_BINARIES",
            Dflag::NewFloats => "NEW_FLOATS",
            Dflag::UnicodeIo => "UNICODE_IO",
            Dflag::DistHdrAtomCache => "DIST_HDR_ATOM_CACHE",
            Dflag::SmallAtomTags => "SMALL_ATOM_TAGS",
            Dflag::Utf8Atoms => "UTF8_ATOMS",
            Dflag::MapTag => "MAP_TAG",
            Dflag::BigCreation => "BIG_CREATION",
            Dflag::SendSender => "SEND_SENDER",
            Dflag::BigSeqtraceLabels => "BIG_SEQTRACE_LABELS",
            Dflag::ExitPayload => "EXIT_PAYLOAD",
            Dflag::Fragments => "FRAGMENTS",
            Dflag::Handshake23 => "HANDSHAKE_23",
            Dflag::UnlinkId => "UNLINK_ID",
            Dflag::Mandatory25Digest => "MANDATORY_25_DIGEST",
            Dflag::Spawn => "SPAWN",
            Dflag::NameMe => "NAME_ME",
            Dflag::V4Nc => "V4_NC",
            Dflag::Alias => "ALIAS",
            Dflag::LocalExt => "LOCAL_EXT",
            Dflag::AltactSig => "ALTACT_SIG",
            Dflag::NativeRecords => "NATIVE_RECORDS",
        }
    }

    /// The flag that has this name.
    pub fn of_name(word: &[u8]) -> Option<Dflag>
        ensures found { IfSome result (λ flag. name_of flag ≡ word.now) }
        ensures every { (flag : Dflag) → name_of flag ≡ word.now → result ≡ Some flag }
    {
        flag_named(word, &ALL)
    }

    fn has_name(self, word: &[u8]) -> bool
        ensures { result ≡ has_name word.now self }
    {
        self.name().as_bytes() == word
    }
}

// The first of these flags that has this name.
fn flag_named(word: &[u8], flags: &[Dflag]) -> Option<Dflag>
    ensures { result ≡ find (has_name word.now) flags.now }
{
    flags.iter().copied().find(|flag| flag.has_name(word))
}
