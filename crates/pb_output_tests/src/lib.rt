//! Tests of what tables show through their views, over what their crates make public.
#![tactic(auto)]

#[cfg(test)]
mod large_views;
#[cfg(test)]
mod layers;
#[cfg(test)]
mod shown;
#[cfg(test)]
mod small_views;
