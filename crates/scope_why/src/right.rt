//! The values by which the MAC of a segment is judged.
ghost use Rattle.std.specs.Prelude.{◌≡◌, ◌≤◌, IfOk};
ghost use Rattle.book_segments.specs.Options.{One, find_ao};
ghost use Rattle.book_why.specs.Judging.{suspect_context};
ghost use Rattle.book_why.specs.Recipes.{key_made, recipe_of};
ghost use Rattle.tcp_segment.specs.Views.{view_ao};
ghost use Rattle.scope_why.specs.MacsViews.{recipe_view, suspect_view};

use crate::choices::right_choices;
use crate::context::push_context;
use crate::recipe::{Recipe, hmac_sha1, hmac_sha256, recipe_by};
use crate::suspect::Suspect;
use ao_kdf::prf;
use book_base::Algorithm;
use std::alloc::{AllocError, Global};

/// The right recipe of a segment (RFC 5925, sections 5.1 and 5.2).
pub fn right_recipe<'a>(alloc: Global, suspect: &Suspect<'a>) -> Result<Recipe<'a>, AllocError>
    requires { find_ao suspect.now.datagram.now.area ≡ One (view_ao suspect.now.ao) }
    ensures recipe { IfOk result (λ recipe. recipe_view recipe ≡ recipe_of (suspect_view suspect.now)) }
    ensures most { IfOk result (λ recipe. recipe.taken ≤ 16) }
{
    let choices = right_choices(alloc, suspect.row, suspect)?;
    match recipe_by(alloc, choices, suspect.datagram, suspect.ao) {
        Ok(recipe) => Ok(recipe),
        Err(error) => Err(error),
    }
}

/// The context of a segment (RFC 5925, section 5.2).
pub fn suspect_context(alloc: Global, suspect: &Suspect<'_>) -> Result<Vec<u8>, AllocError>
    ensures { IfOk result (λ context. context.items ≡ suspect_context (suspect_view suspect.now)) }
{
    let choices = right_choices(alloc, suspect.row, suspect)?;
    let mut context = Vec::new(alloc);
    push_context(&mut context, &choices)?;
    Ok(context)
}

/// The traffic key of a recipe (RFC 5926, section 3.1).
pub fn key_made(alloc: Global, recipe: &Recipe<'_>) -> Result<Vec<u8>, AllocError>
    ensures { IfOk result (λ key. key.items ≡ key_made recipe.now.algorithm recipe.now.master.items
        recipe.now.derivation.items) }
{
    let master = recipe.master.as_slice();
    let derivation = recipe.derivation.as_slice();
    match recipe.algorithm {
        Algorithm::HmacSha1 => hmac_sha1(master, &[], derivation).to_vec(alloc),
        Algorithm::AesCmac => prf(master, derivation).to_vec(alloc),
        Algorithm::HmacSha256 => hmac_sha256(master, &[], derivation).to_vec(alloc),
    }
}
