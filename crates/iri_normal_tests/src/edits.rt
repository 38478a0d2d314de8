ghost use Rattle.std.specs.Prelude.{◌≡◌, true, IfOk, OnErr, OnOk, Some};
ghost use Rattle.iri_edit.specs.Fragment.{with_fragment};
ghost use Rattle.iri_edit.specs.Host.{with_host};
ghost use Rattle.iri_edit.specs.Password.{masked, without_password};

use crate::same::same;
use iri_edit::builder::{BuildError, Builder};
use iri_edit::fragment::SetFragment;
use iri_edit::host::ReplaceHost;
use iri_edit::password::MaskPassword;
use iri_edit::removal::RemovePassword;
use iri_edit::shown_host::{with_host, with_host_reg_name};
use iri_grammar::spec::{IriSpec, UriSpec};
use iri_owned::owned::UriString;
use iri_text::{Show, ToDedicatedString, write_to_slice};
use iri_types::kind::{Iri, Reference};
use iri_types::view::{UriFragmentStr, UriReferenceStr, UriStr};
use std::alloc::{AllocError, Global};
use std::test::Fail;

fn uri(text: &str) -> Result<UriStr<'_>, Fail> {
    match UriStr::new(text) {
        Ok(uri) => Ok(uri),
        Err(_) => Err("a valid URI is refused")?,
    }
}

// What a value shows, at most 64 bytes.
fn shown<T: Show>(alloc: Global, value: &T) -> Result<String, Fail> {
    let mut buf = [0u8; 64];
    match write_to_slice(&mut buf, value) {
        Ok(text) => Ok(String::from_str(alloc, text)?),
        Err(_) => Err("the text is longer than the buffer")?,
    }
}

#[test]
fn masked_and_replaced(rt: HostRuntime) -> Result<(), Fail> {
    let mask = uri("http://u:p@h/")?.mask_password();
    let owned = mask.try_to_dedicated_string(rt.alloc())?;
    same(&rt, owned.as_str(), "http://u:@h/");
    let again = owned.as_slice().mask_password().clone()?;
    same(&rt, shown(rt.alloc(), &again)?.as_str(), "http://u:@h/");
    same(
        &rt,
        format!(in rt.alloc(); "{mask}")?.as_str(),
        "http://u:@h/",
    );
    let with = mask.replace_password(7u8);
    same(
        &rt,
        format!(in rt.alloc(); "{with}")?.as_str(),
        "http://u:7@h/",
    );
    Ok(())
}

#[test]
fn the_closure_is_called_once_or_not(rt: HostRuntime) -> Result<(), Fail> {
    let mut calls = 0u8;
    let mut heard = String::new(rt.alloc());
    heard.try_reserve(8)?;
    let mask = uri("http://u:p@h/")?.mask_password();
    let with = mask.replace_password_with(|password| {
        calls = calls.wrapping_add(1);
        let _ = heard.push_str(password);
        "x"
    });
    same(&rt, shown(rt.alloc(), &with)?.as_str(), "http://u:x@h/");
    same(&rt, calls, 1);
    same(&rt, heard.as_str(), "p");
    let mask = uri("http://u@h/")?.mask_password();
    let with = mask.replace_password_with(|_| {
        calls = calls.wrapping_add(1);
        "x"
    });
    same(&rt, shown(rt.alloc(), &with)?.as_str(), "http://u@h/");
    same(&rt, calls, 1);
    Ok(())
}

// Where allocation fails the text is as it was.
#[test]
fn kept_where_memory_is_refused(rt: HostRuntime) -> Result<(), Fail> {
    let mut uri = UriString::try_from_str(rt.alloc(), "http://a/#f")?;
    let refused = match uri.try_replace_host("a.rather.long.name.example") {
        Ok(_) => false,
        Err(_) => true,
    };
    if refused {
        same(&rt, uri.as_str(), "http://a/#f");
        return Err(AllocError)?;
    }
    let mut uri = UriString::try_from_str(rt.alloc(), "http://a/#f")?;
    let refused = match uri.try_replace_host_reg_name("a.rather.long.name.example") {
        Ok(_) => false,
        Err(_) => true,
    };
    if refused {
        same(&rt, uri.as_str(), "http://a/#f");
        return Err(AllocError)?;
    }
    let mut uri = UriString::try_from_str(rt.alloc(), "http://a/#f")?;
    if uri
        .set_fragment(UriFragmentStr::new("a-rather-long-fragment").ok())
        .is_err()
    {
        same(&rt, uri.as_str(), "http://a/#f");
        return Err(AllocError)?;
    }
    same(&rt, uri.as_str(), "http://a/#a-rather-long-fragment");
    Ok(())
}

#[test]
fn refusals_in_words(rt: HostRuntime) -> Result<(), Fail> {
    let mut builder = Builder::new();
    builder.path("%");
    match builder.build_reference::<UriSpec>(rt.alloc()) {
        Ok(_) => return Err("a fault is taken")?,
        Err(error) => {
            let words = format!(in rt.alloc(); "{error}")?;
            same(&rt, words.as_str(), "invalid IRI: invalid path");
        }
    }
    let memory = BuildError::Memory(AllocError);
    same(
        &rt,
        format!(in rt.alloc(); "{memory}")?.as_str(),
        "memory allocation failed",
    );
    Ok(())
}

#[test]
fn built(rt: HostRuntime) -> Result<(), Fail> {
    let mut builder = Builder::new();
    builder.scheme("HTTP");
    builder.host("H");
    builder.path("/a/../b");
    let iri = builder.build_iri::<UriSpec>(rt.alloc())?;
    same(&rt, iri.as_str(), "HTTP://H/a/../b");
    let absolute = builder.build_absolute::<UriSpec>(rt.alloc())?;
    same(&rt, absolute.as_str(), "HTTP://H/a/../b");
    builder.normalize();
    let normal = builder.build_reference::<UriSpec>(rt.alloc())?;
    same(&rt, normal.as_str(), "http://h/b");
    builder.unset_normalize();
    let plain = builder.build_reference::<UriSpec>(rt.alloc())?;
    same(&rt, plain.as_str(), "HTTP://H/a/../b");
    let mut port = Builder::default();
    port.port("8");
    port.normalize();
    let relative = port.build_relative::<UriSpec>(rt.alloc())?;
    same(&rt, relative.as_str(), "//:8");
    Ok(())
}

#[test]
fn parts_set_and_taken_back(rt: HostRuntime) -> Result<(), Fail> {
    let mut builder = Builder::new();
    builder.scheme("s");
    builder.userinfo("u:p");
    builder.host("é");
    builder.port("");
    builder.path("/p");
    builder.query("q");
    builder.fragment("f");
    let all = builder.build_reference::<IriSpec>(rt.alloc())?;
    same(&rt, all.as_str(), "s://u:p@é:/p?q#f");
    builder.unset_scheme();
    builder.unset_port();
    builder.unset_userinfo();
    let some = builder.build_reference::<IriSpec>(rt.alloc())?;
    same(&rt, some.as_str(), "//é/p?q#f");
    builder.unset_authority();
    builder.unset_query();
    builder.unset_fragment();
    let path = builder.build_relative::<IriSpec>(rt.alloc())?;
    same(&rt, path.as_str(), "/p");
    Ok(())
}

// What is known of any type with these traits.
fn hidden<V: MaskPassword>(view: V) -> V::Masked
    ensures { V.Masked.text result ≡ masked (V.text view) }
{
    view.mask_password()
}

fn remove<T: RemovePassword>(text: &mut T)
    ensures { T.text text.new ≡ without_password (T.text text.old) }
{
    text.remove_password_inline();
}

fn put_host<T: ReplaceHost>(text: &mut T, host: &str) -> Result<bool, AllocError>
    ensures host { IfOk result (λ b. b ≡ true → T.text text.new ≡ with_host (T.text text.old) host.now) }
    ensures err { OnErr result (text.new ≡ text.old) }
{
    match text.try_replace_host(host) {
        Ok(Some(_)) => Ok(true),
        Ok(None) => Ok(false),
        Err(error) => Err(error),
    }
}

fn put_fragment<F: Show + Drop, T: SetFragment<F>>(
    text: &mut T,
    fragment: F,
) -> Result<(), AllocError>
    ensures ok { OnOk result (T.text text.new ≡ with_fragment (T.text text.old) (Some (F.text fragment))) }
    ensures err { OnErr result (text.new ≡ text.old) }
{
    text.set_fragment(Some(fragment))
}

#[test]
fn any_type_with_the_traits(rt: HostRuntime) -> Result<(), Fail> {
    let mut text = UriString::try_from_str(rt.alloc(), "http://u:p@h/")?;
    let mask = hidden(text.as_slice());
    same(&rt, shown(rt.alloc(), &mask)?.as_str(), "http://u:@h/");
    remove(&mut text);
    assert!(rt; put_host(&mut text, "g")?);
    match UriFragmentStr::new("f") {
        Ok(fragment) => put_fragment(&mut text, fragment)?,
        Err(_) => return Err("a valid fragment is refused")?,
    }
    same(&rt, text.as_str(), "http://u@g/#f");
    Ok(())
}

fn reference(text: &str) -> Result<UriReferenceStr<'_>, Fail> {
    match UriReferenceStr::new(text) {
        Ok(reference) => Ok(reference),
        Err(_) => Err("a valid reference is refused")?,
    }
}

#[test]
fn shown_with_another_host(rt: HostRuntime) -> Result<(), Fail> {
    let text = reference("http://u@192.0.2.16:80/?q")?;
    let Some(with) = with_host(text, "[2001:db8::7]") else {
        return Err("no host is replaced")?;
    };
    same(
        &rt,
        shown(rt.alloc(), &with)?.as_str(),
        "http://u@[2001:db8::7]:80/?q",
    );
    assert!(rt; with_host_reg_name(text, "h").is_none() && with_host(text, "[").is_none());
    let Some(with) = with_host_reg_name(reference("//a/")?, "192.0.2.16") else {
        return Err("no name is replaced")?;
    };
    same(&rt, shown(rt.alloc(), &with)?.as_str(), "//192.0.2.16/");
    assert!(rt; with_host(reference("mailto:u@h")?, "a").is_none());
    Ok(())
}

#[test]
fn builders_shown(rt: HostRuntime) -> Result<(), Fail> {
    let mut parts = Builder::new();
    parts.userinfo("u");
    parts.port("8");
    parts.path("/p");
    parts.query("");
    parts.fragment("f");
    assert!(rt; parts.validate::<UriSpec, Reference>().is_ok());
    assert!(rt; parts.validate::<UriSpec, Iri>().is_err());
    same(&rt, shown(rt.alloc(), &parts)?.as_str(), "//u@:8/p?#f");
    parts.normalize();
    parts.scheme("X");
    parts.path("%7e");
    same(&rt, shown(rt.alloc(), &parts)?.as_str(), "X://u@:8%7e?#f");
    assert!(rt; parts.validate::<UriSpec, Iri>().is_err());
    Ok(())
}
