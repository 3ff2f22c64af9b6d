mod contours;
mod depth_areas;
mod drawings;
mod shared_edges;
mod soundings;
mod users;
