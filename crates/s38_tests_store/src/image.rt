//! Worked images, byte by byte, as the rules of images and no program make them.

#[cfg(test)]
mod bits;
#[cfg(test)]
mod objects;
#[cfg(test)]
mod pages;
#[cfg(test)]
mod parts;
#[cfg(test)]
mod samples;
