// What a painter may leave out: the floor of a pixel, below which nothing shows, and the pixel from there up. No function.
#![tactic(auto)]
