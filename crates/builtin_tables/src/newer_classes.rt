// Classes and interfaces that 8.0 to 8.3 declare themselves, by the lengths of their names.
ghost use Rattle.std.specs.Prelude.{◌≡◌};
ghost use Rattle.builtin_tables.specs.Named.{found, of_length, rows_of};
ghost use Rattle.builtin_tables.specs.Newer.{newer_classes};

use crate::named::find_row;
use crate::release::Release;

static LENGTH_5: [(&str, Release); 2] = [("shmop", Release::V80), ("fiber", Release::V81)];

static LENGTH_6: [(&str, Release); 3] = [
    ("ocilob", Release::V80),
    ("socket", Release::V80),
    ("gdfont", Release::V81),
];

static LENGTH_7: [(&str, Release); 2] = [("weakmap", Release::V80), ("gdimage", Release::V80)];

static LENGTH_8: [(&str, Release); 3] = [
    ("phptoken", Release::V80),
    ("unitenum", Release::V81),
    ("override", Release::V83),
];

static LENGTH_9: [(&str, Release); 4] = [
    ("attribute", Release::V80),
    ("xmlparser", Release::V80),
    ("pgsql\\lob", Release::V81),
    ("dateerror", Release::V83),
];

static LENGTH_10: [(&str, Release); 5] = [
    ("stringable", Release::V80),
    ("valueerror", Release::V80),
    ("curlhandle", Release::V80),
    ("backedenum", Release::V81),
    ("fibererror", Release::V81),
];

static LENGTH_11: [(&str, Release); 2] = [
    ("addressinfo", Release::V80),
    ("ldap\\result", Release::V81),
];

static LENGTH_12: [(&str, Release); 2] = [
    ("domchildnode", Release::V80),
    ("pgsql\\result", Release::V81),
];

static LENGTH_13: [(&str, Release); 7] = [
    ("domparentnode", Release::V80),
    ("enchantbroker", Release::V80),
    ("ocicollection", Release::V80),
    ("sysvsemaphore", Release::V80),
    ("pspell\\config", Release::V81),
    ("random\\engine", Release::V82),
    ("dateexception", Release::V83),
];

static LENGTH_14: [(&str, Release); 6] = [
    ("deflatecontext", Release::V80),
    ("inflatecontext", Release::V80),
    ("reflectionenum", Release::V81),
    ("curlstringfile", Release::V81),
    ("ftp\\connection", Release::V81),
    ("daterangeerror", Release::V83),
];

static LENGTH_15: [(&str, Release); 6] = [
    ("curlmultihandle", Release::V80),
    ("curlsharehandle", Release::V80),
    ("reflectionfiber", Release::V81),
    ("imap\\connection", Release::V81),
    ("ldap\\connection", Release::V81),
    ("dateobjecterror", Release::V83),
];

static LENGTH_16: [(&str, Release); 6] = [
    ("internaliterator", Release::V80),
    ("sysvmessagequeue", Release::V80),
    ("sysvsharedmemory", Release::V80),
    ("ldap\\resultentry", Release::V81),
    ("pgsql\\connection", Release::V81),
    ("sqlite3exception", Release::V83),
];

static LENGTH_17: [(&str, Release); 3] = [
    ("enchantdictionary", Release::V80),
    ("pspell\\dictionary", Release::V81),
    ("random\\randomizer", Release::V82),
];

static LENGTH_18: [(&str, Release); 3] = [
    ("opensslcertificate", Release::V80),
    ("sensitiveparameter", Release::V82),
    ("random\\randomerror", Release::V82),
];

static LENGTH_19: [(&str, Release); 3] = [
    ("unhandledmatcherror", Release::V80),
    ("reflectionattribute", Release::V80),
    ("reflectionuniontype", Release::V80),
];

static LENGTH_20: [(&str, Release); 3] = [
    ("opensslasymmetrickey", Release::V80),
    ("returntypewillchange", Release::V81),
    ("random\\engine\\secure", Release::V82),
];

static LENGTH_21: [(&str, Release); 1] = [("random\\engine\\mt19937", Release::V82)];

static LENGTH_22: [(&str, Release); 3] = [
    ("reflectionenumunitcase", Release::V81),
    ("allowdynamicproperties", Release::V82),
    ("random\\randomexception", Release::V82),
];

static LENGTH_23: [(&str, Release); 3] = [
    ("sensitiveparametervalue", Release::V82),
    ("random\\cryptosafeengine", Release::V82),
    ("random\\intervalboundary", Release::V83),
];

static LENGTH_24: [(&str, Release); 2] = [
    ("reflectionenumbackedcase", Release::V81),
    ("intldatepatterngenerator", Release::V81),
];

static LENGTH_26: [(&str, Release); 1] = [("reflectionintersectiontype", Release::V81)];

static LENGTH_28: [(&str, Release); 2] = [
    ("dateinvalidtimezoneexception", Release::V83),
    ("datemalformedstringexception", Release::V83),
];

static LENGTH_29: [(&str, Release); 1] = [("dateinvalidoperationexception", Release::V83)];

static LENGTH_30: [(&str, Release); 1] = [("random\\brokenrandomengineerror", Release::V82)];

static LENGTH_32: [(&str, Release); 2] = [
    ("opensslcertificatesigningrequest", Release::V80),
    ("random\\engine\\xoshiro256starstar", Release::V82),
];

static LENGTH_33: [(&str, Release); 1] = [("random\\engine\\pcgoneseq128xslrr64", Release::V82)];

static LENGTH_34: [(&str, Release); 1] = [("datemalformedperiodstringexception", Release::V83)];

static LENGTH_36: [(&str, Release); 1] = [("datemalformedintervalstringexception", Release::V83)];

// The rows whose names have a length.
#[tactic(auto, unfolding(crate::specs::Newer::newer_classes))]
fn rows_of_length(length: usize) -> &'static [(&'static str, Release)]
    ensures { rows_of result.now ≡ of_length length newer_classes }
{
    match length {
        5 => &LENGTH_5,
        6 => &LENGTH_6,
        7 => &LENGTH_7,
        8 => &LENGTH_8,
        9 => &LENGTH_9,
        10 => &LENGTH_10,
        11 => &LENGTH_11,
        12 => &LENGTH_12,
        13 => &LENGTH_13,
        14 => &LENGTH_14,
        15 => &LENGTH_15,
        16 => &LENGTH_16,
        17 => &LENGTH_17,
        18 => &LENGTH_18,
        19 => &LENGTH_19,
        20 => &LENGTH_20,
        21 => &LENGTH_21,
        22 => &LENGTH_22,
        23 => &LENGTH_23,
        24 => &LENGTH_24,
        26 => &LENGTH_26,
        28 => &LENGTH_28,
        29 => &LENGTH_29,
        30 => &LENGTH_30,
        32 => &LENGTH_32,
        33 => &LENGTH_33,
        34 => &LENGTH_34,
        36 => &LENGTH_36,
        _ => &[],
    }
}

/// The release that first declares a class or interface of this name itself, or `None`. The name has its namespace
/// and no `\\` in front. Without ASCII case. (UPGRADING 8.0 to 8.3, "New Classes and Interfaces".)
#[tactic(auto, using(crate::proofs::LengthLemmas::found_in_length))]
pub fn newer_class(name: &[u8]) -> Option<Release>
    ensures { result ≡ found newer_classes name.now }
{
    find_row(rows_of_length(name.len()), name)
}
