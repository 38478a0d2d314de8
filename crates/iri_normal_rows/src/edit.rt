// Passwords, hosts, fragments, and texts that are built of parts.
use iri_edit::build_kind::BuildKind;
use iri_edit::builder::{BuildError, Builder};
use iri_edit::fragment::SetFragment;
use iri_edit::host::ReplaceHost;
use iri_edit::password::MaskPassword;
use iri_edit::removal::RemovePassword;
use iri_edit::shown_removal::without_password;
use iri_grammar::spec::Spec;
use iri_owned::error::CreateError;
use iri_owned::owned::{Owned, UriString};
use iri_rows::answer::displayed;
use iri_rows::error::RowError;
use iri_rows::field::Field;
use iri_rows::{in_grammar, in_kind};
use iri_text::ToStringFallible;
use iri_types::kind::{Kind, WholeKind};
use iri_types::view::{RiReferenceStr, View};
use std::alloc::{AllocError, Global};

fn owned<S: Spec, K: Kind>(alloc: Global, text: &Field) -> Result<Owned<S, K>, RowError> {
    match Owned::try_from_str(alloc, text.text()?) {
        Ok(owned) => Ok(owned),
        Err(CreateError::Memory(error)) => Err(RowError::Memory(error)),
        Err(CreateError::Invalid(_)) => Err(RowError::NoRow),
    }
}

// `masked GRAMMAR KIND TEXT`: the text without its password, with the colon.
fn masked<S: Spec, K: WholeKind>(alloc: Global, text: &Field) -> Result<String, RowError> {
    let view: View<'_, S, K> = text.view()?;
    Ok(view.mask_password().try_to_string(alloc)?)
}

// `replaced GRAMMAR KIND TEXT PASSWORD`: the text with another password in the place of its own.
fn replaced<S: Spec, K: WholeKind>(
    alloc: Global,
    text: &Field,
    password: &Field,
) -> Result<String, RowError> {
    let view: View<'_, S, K> = text.view()?;
    let shown = view.mask_password().replace_password(password.text()?);
    Ok(shown.try_to_string(alloc)?)
}

// `removed GRAMMAR KIND TEXT`: the text without its password and the colon.
fn removed<S: Spec, K: WholeKind>(alloc: Global, text: &Field) -> Result<String, RowError> {
    let mut owned = owned::<S, K>(alloc, text)?;
    owned.remove_password_inline();
    Ok(owned.into_string())
}

// `emptied GRAMMAR KIND TEXT`: the text with an empty password in the place of its own.
fn emptied<S: Spec, K: WholeKind>(alloc: Global, text: &Field) -> Result<String, RowError> {
    let mut owned = owned::<S, K>(alloc, text)?;
    owned.remove_nonempty_password_inline();
    Ok(owned.into_string())
}

// `without GRAMMAR REFERENCE`: the text without its password and the colon, shown.
fn without<S: Spec>(alloc: Global, text: &Field) -> Result<String, RowError> {
    let reference: RiReferenceStr<'_, S> = text.view()?;
    Ok(without_password(reference).try_to_string(alloc)?)
}

// The text after a host was put in, with `kept` before it where none was.
fn after_host<S: Spec, K: WholeKind>(
    alloc: Global,
    text: Owned<S, K>,
    is_put: bool,
) -> Result<String, RowError> {
    if is_put {
        return Ok(text.into_string());
    }
    Ok(format!(in alloc; "kept {}", text.as_str())?)
}

// `host GRAMMAR KIND TEXT HOST`: the text with another host, which the call gives back.
fn host<S: Spec, K: WholeKind>(
    alloc: Global,
    text: &Field,
    host: &Field,
) -> Result<String, RowError> {
    let mut owned = owned::<S, K>(alloc, text)?;
    let new = host.text()?;
    let is_put = match owned.try_replace_host(new)? {
        Some(slice) => slice == new,
        None => false,
    };
    after_host(alloc, owned, is_put)
}

// `name GRAMMAR KIND TEXT HOST`: the same where the host of the text is a registered name.
fn name<S: Spec, K: WholeKind>(
    alloc: Global,
    text: &Field,
    host: &Field,
) -> Result<String, RowError> {
    let mut owned = owned::<S, K>(alloc, text)?;
    let new = host.text()?;
    let is_put = match owned.try_replace_host_reg_name(new)? {
        Some(slice) => slice == new,
        None => false,
    };
    after_host(alloc, owned, is_put)
}

// `fragment TEXT FRAGMENT`: a URI with another fragment, or none.
fn fragment(alloc: Global, text: &Field, fragment: &Field) -> Result<String, RowError> {
    let mut uri: UriString = owned(alloc, text)?;
    match fragment.optional()? {
        Some(_) => uri.set_fragment(Some(fragment.view()?))?,
        None => uri.set_fragment(None)?,
    }
    Ok(uri.into_string())
}

// A builder whose parts are those of the fields, in their order.
fn builder(parts: &[Field]) -> Result<Builder<'_>, RowError> {
    let [scheme, userinfo, host, port, path, query, fragment] = parts else {
        return Err(RowError::NoRow);
    };
    let mut builder = Builder::new();
    if let Some(scheme) = scheme.optional()? {
        builder.scheme(scheme);
    }
    if let Some(userinfo) = userinfo.optional()? {
        builder.userinfo(userinfo);
    }
    if let Some(host) = host.optional()? {
        builder.host(host);
    }
    if let Some(port) = port.optional()? {
        builder.port(port);
    }
    if let Some(path) = path.optional()? {
        builder.path(path);
    }
    if let Some(query) = query.optional()? {
        builder.query(query);
    }
    if let Some(fragment) = fragment.optional()? {
        builder.fragment(fragment);
    }
    Ok(builder)
}

// `built GRAMMAR KIND SCHEME USERINFO HOST PORT PATH QUERY FRAGMENT`: the text of these parts, or the first fault.
fn built<S: Spec, K: BuildKind>(alloc: Global, parts: &[Field]) -> Result<String, RowError> {
    match builder(parts)?.build::<S, K>(alloc) {
        Ok(text) => Ok(text.into_string()),
        Err(BuildError::Invalid(error)) => Ok(displayed(alloc, &error)?),
        Err(BuildError::Memory(error)) => Err(RowError::Memory(error)),
    }
}

// What takes a text of a kind.
fn of_grammar<S: Spec>(alloc: Global, verb: &str, fields: &[Field]) -> Result<String, RowError> {
    match (verb, fields) {
        ("masked", [kind, text]) => in_kind!(kind, masked::<S>(alloc, text)),
        ("replaced", [kind, text, new]) => in_kind!(kind, replaced::<S>(alloc, text, new)),
        ("removed", [kind, text]) => in_kind!(kind, removed::<S>(alloc, text)),
        ("emptied", [kind, text]) => in_kind!(kind, emptied::<S>(alloc, text)),
        ("host", [kind, text, new]) => in_kind!(kind, host::<S>(alloc, text, new)),
        ("name", [kind, text, new]) => in_kind!(kind, name::<S>(alloc, text, new)),
        ("without", [text]) => without::<S>(alloc, text),
        ("built", [kind, parts @ ..]) => in_kind!(kind, built::<S>(alloc, parts)),
        _ => Err(RowError::NoRow),
    }
}

pub(crate) fn answer(alloc: Global, verb: &str, fields: &[Field]) -> Result<String, RowError> {
    match (verb, fields) {
        ("fragment", [text, new]) => fragment(alloc, text, new),
        (_, [grammar, rest @ ..]) => in_grammar!(grammar, of_grammar(alloc, verb, rest)),
        _ => Err(RowError::NoRow),
    }
}
