ghost use Rattle.std.specs.Prelude.{◌≡◌, ◌++◌, ◌∷◌, ◌==◌, [], IfOk, OnOk, if◌then◌else◌};
ghost use Rattle.cv_outside.specs.words.sample.Samples.{back, barred, declared, each, file_of as sample, front, key, mac, numbered, pair, unforgeable};

use std::alloc::{AllocError, Global};

/// Appends a byte, or the digits of the number for which `#` stands.
fn push_mark(out: &mut Vec<u8>, byte: u8, digits: &[u8]) -> Result<(), AllocError>
    ensures { OnOk result (out.new.items
        ≡ out.old.items ++ (if byte == 35 then digits.now else byte ∷ [])) }
{
    if byte == b'#' {
        out.extend_from_slice(digits)
    } else {
        out.push(byte)?;
        Ok(())
    }
}

/// Appends a text in which `#` stands for a number.
fn push_numbered(out: &mut Vec<u8>, text: &[u8], number: u32) -> Result<(), AllocError>
    ensures { OnOk result (out.new.items ≡ out.old.items ++ numbered text.now number) }
{
    let alloc = *out.allocator();
    let digits = format!(in alloc; "{number}")?;
    'marks: for k in 0..text.len() {
        push_mark(out, text[k], digits.as_bytes())?;
    }
    Ok(())
}

/// Appends the same for each number from 1 on.
fn push_each(out: &mut Vec<u8>, text: &[u8], count: u32) -> Result<(), AllocError>
    ensures { OnOk result (out.new.items ≡ out.old.items ++ each text.now count) }
{
    'numbers: for k in 0..count {
        push_numbered(out, text, k + 1)?;
    }
    Ok(())
}

/// Appends the declarations of a MAC.
#[tactic(auto, unfolding(crate::specs::words::sample::Samples::mac))]
fn push_mac(out: &mut Vec<u8>) -> Result<(), AllocError>
    ensures { OnOk result (out.new.items ≡ out.old.items ++ mac) }
{
    out.extend_from_slice(
        b"param NA, NB, NC.\n\
        type message.\n\
        type key [fixed, large].\n\
        type tag.\n\
        fun mac(message, key): tag.\n\
        fun check(message, key, tag): bool.\n\
        fun mac2(message, key): tag.\n\
        fun check2(message, key, tag): bool.\n\
        equation forall m:message, k0:key; check(m, k0, mac(m, k0)) = true.\n\
        equation forall m:message, k0:key; check2(m, k0, mac2(m, k0)) = true.\n",
    )
}

/// Appends the assumption on it.
#[tactic(auto, unfolding(crate::specs::words::sample::Samples::unforgeable))]
fn push_unforgeable(out: &mut Vec<u8>) -> Result<(), AllocError>
    ensures { OnOk result (out.new.items ≡ out.old.items ++ unforgeable) }
{
    out.extend_from_slice(
        b"proba Pmac.\n\
        equiv uf !i<=n new r:key; (\n\
        \x20 Omac: !j<=qm (x:message) -> mac(x, r) |\n\
        \x20 Ochk: !j<=qc (y:message, z:tag) -> check(y, r, z) )\n\
        <=(Pmac)=> !i<=n new r:key; (\n\
        \x20 Omac: !j<=qm (x:message) -> mac2(x, r) |\n\
        \x20 Ochk: !j<=qc (y:message, z:tag) ->\n\
        \x20   find u<=qm suchthat defined(x[u]) && y = x[u] && check2(x[u], r, z) then true else false ).\n",
    )
}

/// The channels, the events and the query of a pair.
#[tactic(auto, unfolding(crate::specs::words::sample::Samples::declared))]
fn declared() -> &'static [u8]
    ensures { result.now ≡ declared }
{
    b"channel ca#, da#, cb#, db#. event e#(message). event f#(message). \
    query m:message; event e#(m) ==> event f#(m).\n"
}

/// The key of a pair.
#[tactic(auto, unfolding(crate::specs::words::sample::Samples::key))]
fn key() -> &'static [u8]
    ensures { result.now ≡ key }
{
    b"new k#:key;\n"
}

/// The two processes of a pair.
#[tactic(auto, unfolding(crate::specs::words::sample::Samples::pair))]
fn pair() -> &'static [u8]
    ensures { result.now ≡ pair }
{
    b" !i#<=NA in(ca#, (a#:message)); event f#(a#); out(da#, (mac(a#, k#)))\n\
    | !j#<=NB in(cb#, (b#:message, t#:tag)); if check(b#, k#, t#) then event e#(b#); out(db#, ()) \n"
}

/// Appends the processes of so many pairs, each with a bar behind it.
fn push_barred(out: &mut Vec<u8>, count: u32) -> Result<(), AllocError>
    ensures { OnOk result (out.new.items ≡ out.old.items ++ barred count) }
{
    'pairs: for k in 0..count {
        push_numbered(out, pair(), k + 1)?;
        out.extend_from_slice(b"|\n")?;
    }
    Ok(())
}

/// Appends the declarations of all pairs, and their keys.
fn push_front(out: &mut Vec<u8>, count: u32) -> Result<(), AllocError>
    ensures { OnOk result (out.new.items ≡ out.old.items ++ front count) }
{
    out.extend_from_slice(b"channel st.\n")?;
    push_each(out, declared(), count)?;
    out.extend_from_slice(b"process in(st, ());\n")?;
    push_each(out, key(), count)?;
    out.extend_from_slice(b"out(st, ());\n")?;
    Ok(())
}

/// Appends the processes of all pairs.
fn push_back(out: &mut Vec<u8>, count: u32) -> Result<(), AllocError>
    ensures { OnOk result (out.new.items ≡ out.old.items ++ back count) }
{
    out.extend_from_slice(b"(\n")?;
    push_barred(out, count.saturating_sub(1))?;
    push_numbered(out, pair(), count)?;
    out.extend_from_slice(b")\n")?;
    Ok(())
}

/// The text of the sample with so many pairs, of which there is at least one.
#[tactic(auto, unfolding(crate::specs::words::sample::Samples::file_of))]
pub fn file_of(alloc: Global, count: u32) -> Result<Vec<u8>, AllocError>
    ensures { IfOk result (λ v. v.items ≡ sample count) }
{
    let mut out = Vec::new(alloc);
    push_mac(&mut out)?;
    push_unforgeable(&mut out)?;
    push_front(&mut out, count)?;
    push_back(&mut out, count)?;
    Ok(out)
}
